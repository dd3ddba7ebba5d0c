// What the host links: the functions of libkrevilosh.a. Each hands back one number, whose low 8 bits are the refusal's
// number, 0 where the call is accepted. A refused call changes nothing behind any pointer.
#![tactic(auto)]

ghost use Rattle.std.specs.Prelude.{◌≡◌, ◌<◌};
ghost use Rattle.protocol.specs.Refusals.{number_in};
ghost use Rattle.ledger.specs.Answers.{number_of};
ghost use Rattle.krevilosh.specs.Answer.{answer, or_zero};

use protocol::Refusal;

mod asking;
mod credits;
mod entries;
mod publishers;
mod reading;
mod writing;

pub use asking::{krevilosh_element, krevilosh_message};
pub use credits::{
    krevilosh_credit_close, krevilosh_credit_empty, krevilosh_credit_grant, krevilosh_credit_open,
};
pub use entries::{krevilosh_chunk_next, krevilosh_chunk_open};
pub use publishers::{
    krevilosh_publisher_confirm, krevilosh_publisher_declare, krevilosh_publisher_delete,
    krevilosh_publisher_empty, krevilosh_publisher_send,
};
pub use reading::{krevilosh_credit_receive, krevilosh_read};
pub use writing::krevilosh_write;

// A refusal's number, or 0, and a value above it.
fn packed(number: u8, value: u64) -> u64
    requires { value < 0x100_0000_0000_0000 }
    ensures { result ≡ answer number value }
{
    number as u64 + 256 * value
}

// 0, or the refusal's number.
fn refusal_number(answer: Result<(), Refusal>) -> u64
    ensures number { result ≡ number_in answer }
    ensures of_ledger { result ≡ or_zero (number_of answer) }
{
    match answer {
        Ok(()) => 0,
        Err(refusal) => refusal.number() as u64,
    }
}
