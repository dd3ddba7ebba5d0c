// The publisher ledger of one connection (01 "Ledgers"): 256 publisher ids, each closed or open with the number of messages
// out, in an array that the host lends.
#![tactic(auto)]

ghost use Rattle.std.specs.Prelude.{◌≡◌};
ghost use Rattle.publisher_ledger.specs.Calls.{declaration, deletion, sending, confirming};
ghost use Rattle.publisher_ledger.specs.Step.{answer, after, answer_of};

pub use ledger::{clear, empty, state};
use protocol::Refusal;

// 14 if the id is open; else it has no message out.
pub fn declare(publishers: &mut [u32; 257], id: u8) -> Result<(), Refusal>
    ensures answer { answer_of result ≡ answer publishers.old (declaration id) }
    ensures publishers_after { publishers.new ≡ after publishers.old (declaration id) }
{
    ledger::start(publishers, id, 0)
}

// 13 if the id is closed.
pub fn delete(publishers: &mut [u32; 257], id: u8) -> Result<(), Refusal>
    ensures answer { answer_of result ≡ answer publishers.old (deletion id) }
    ensures publishers_after { publishers.new ≡ after publishers.old (deletion id) }
{
    ledger::stop(publishers, id)
}

// n messages sent: 13 if the id is closed, 16 if the messages out would pass 1,000,000.
pub fn send(publishers: &mut [u32; 257], id: u8, n: u32) -> Result<(), Refusal>
    ensures answer { answer_of result ≡ answer publishers.old (sending id n) }
    ensures publishers_after { publishers.new ≡ after publishers.old (sending id n) }
{
    ledger::add(publishers, id, n)
}

// n messages confirmed or in error: 13 if the id is closed, 17 if fewer are out.
pub fn confirm(publishers: &mut [u32; 257], id: u8, n: u32) -> Result<(), Refusal>
    ensures answer { answer_of result ≡ answer publishers.old (confirming id n) }
    ensures publishers_after { publishers.new ≡ after publishers.old (confirming id n) }
{
    if ledger::take(publishers, id, n)? {
        return Ok(());
    }
    Err(Refusal::NotOut)
}
