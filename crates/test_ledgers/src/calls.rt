// A call for each line.
ghost use Rattle.std.specs.Prelude.{◌≡◌, take};
ghost use Rattle.credit_ledger.specs.Calls.{received};
ghost use Rattle.credit_ledger.specs.Step.{after};
ghost use Rattle.test_text.specs.Digits.{octets};
ghost use Rattle.test_ledgers.specs.Calls.{credits_after, publishers_after};

use crate::script::Word;
use crate::{answers, script};

pub fn replay(text: &[u8]) {
    let mut credits = credit_ledger::empty();
    let mut publishers = publisher_ledger::empty();
    for line in text.split_inclusive(|byte| *byte == b'\n') {
        let line = line.strip_suffix(b"\n").unwrap_or(line);
        call(line, &mut credits, &mut publishers);
    }
}

fn call(line: &[u8], credits: &mut [u32; 257], publishers: &mut [u32; 257])
    ensures credits_after { credits.new ≡ credits_after credits.old line.now }
    ensures publishers_after { publishers.new ≡ publishers_after publishers.old line.now }
{
    let first = script::after_space(line);
    let second = script::after_space(first);
    let n = test_text::number(first);
    let id = (n % 256) as u8;
    let more = test_text::number(second);
    match script::first_word(line) {
        Word::Open => answers::change(credit_ledger::open(credits, id, (more % 65536) as u16)),
        Word::Grant => answers::change(credit_ledger::grant(credits, id, (more % 65536) as u16)),
        Word::Close => answers::change(credit_ledger::close(credits, id)),
        Word::Receive => receive(second, credits, (n % 4294967296) as u32),
        Word::Credit => answers::state(credit_ledger::state(credits, id)),
        Word::Declare => answers::change(publisher_ledger::declare(publishers, id)),
        Word::Delete => answers::change(publisher_ledger::delete(publishers, id)),
        Word::Send => answers::change(publisher_ledger::send(
            publishers,
            id,
            (more % 4294967296) as u32,
        )),
        Word::Confirm => answers::change(publisher_ledger::confirm(
            publishers,
            id,
            (more % 4294967296) as u32,
        )),
        Word::Out => answers::state(publisher_ledger::state(publishers, id)),
        Word::Unknown => answers::comment(line),
    }
}

// The text is the bytes of a frame.
fn receive(text: &[u8], credits: &mut [u32; 257], limit: u32)
    ensures { credits.new ≡ after credits.old (received (take 4096 (octets text.now)) limit) }
{
    let mut buffer = io::buffer();
    let n = test_text::unhex(text, &mut buffer);
    let mut slots = [0u64; 24];
    answers::received(credit_receiving::receive(credits, &buffer[..n], limit, &mut slots));
}
