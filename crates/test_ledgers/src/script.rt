// The parts of a line.
ghost use Rattle.std.specs.Prelude.{◌≡◌};
ghost use Rattle.test_ledgers.specs.Words.{word_of, first_word, after_space};

use wire::Width;

#[derive(Clone, Copy)]
pub enum Word {
    Open,
    Grant,
    Close,
    Receive,
    Credit,
    Declare,
    Delete,
    Send,
    Confirm,
    Out,
    Unknown,
}

// The word that a line begins with: its first four letters tell it from the others.
pub fn first_word(line: &[u8]) -> Word
    ensures { result ≡ first_word line.now }
{
    match wire::number_at(line, 0, Width::Four) {
        Some(letters) => word_of(letters),
        None => Word::Unknown,
    }
}

#[tactic(auto, unfolding(crate::specs::Words::word_of))]
fn word_of(letters: u64) -> Word
    ensures { result ≡ word_of letters }
{
    match letters {
        0x6f70_656e => Word::Open,
        0x6772_616e => Word::Grant,
        0x636c_6f73 => Word::Close,
        0x7265_6365 => Word::Receive,
        0x6372_6564 => Word::Credit,
        0x6465_636c => Word::Declare,
        0x6465_6c65 => Word::Delete,
        0x7365_6e64 => Word::Send,
        0x636f_6e66 => Word::Confirm,
        0x6f75_7420 => Word::Out,
        _ => Word::Unknown,
    }
}

// What follows the first space; nothing where there is none.
pub fn after_space(text: &[u8]) -> &[u8]
    ensures { result.now ≡ after_space text.now }
{
    let at = test_text::find(text, 0, 0x20);
    if at < text.len() {
        return &text[at + 1..];
    }
    &text[at..]
}
