// The answers on standard output, a line each.
use credit_receiving::ReceiveError;
use frame_reading::ReadError;
use protocol::Refusal;
use test_text::{decimal, line, word};

pub fn change(answer: Result<(), Refusal>) {
    match answer {
        Ok(()) => accepted(),
        Err(refusal) => refused(refusal),
    }
}

pub fn received(answer: Result<(), ReceiveError>) {
    match answer {
        Ok(()) => accepted(),
        Err(ReceiveError::Read(error)) => unread(error),
        Err(ReceiveError::Ledger(refusal)) => refused(refusal),
    }
}

fn unread(error: ReadError) {
    match error {
        ReadError::Short { needed } => short(needed),
        ReadError::Refused(fault) => misread(fault.refusal, fault.at),
    }
}

pub fn state(balance: Option<u32>) {
    match balance {
        Some(balance) => opened(balance),
        None => closed(),
    }
}

// The other lines, which tell what the calls after them are about.
pub fn comment(words: &[u8]) {
    word(words);
    line();
}

fn accepted() {
    word(b"accepted\n");
}

fn closed() {
    word(b"closed\n");
}

fn refused(refusal: Refusal) {
    word(b"refused");
    decimal(refusal.number() as u64);
    line();
}

fn short(needed: u64) {
    word(b"refused 1 needs");
    decimal(needed);
    line();
}

fn misread(refusal: Refusal, place: usize) {
    word(b"refused");
    decimal(refusal.number() as u64);
    word(b" at");
    decimal(place as u64);
    line();
}

fn opened(balance: u32) {
    word(b"open");
    decimal(balance as u64);
    line();
}
