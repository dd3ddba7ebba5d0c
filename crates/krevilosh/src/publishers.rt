// The publisher ledger: entry i is 0 for a closed id, and the messages out and 1 for an open one.
ghost use Rattle.std.specs.Prelude.{◌≡◌};
ghost use Rattle.ledger.specs.Rules.{empty};
ghost use Rattle.publisher_ledger.specs.Calls.{declaration, deletion, sending, confirming};
ghost use Rattle.publisher_ledger.specs.Numbers.{refusal_number};
ghost use Rattle.publisher_ledger.specs.Step.{answer, after};
ghost use Rattle.krevilosh.specs.Answer.{or_zero};

use crate::refusal_number;

// Closes all ids, whatever the ledger held.
pub fn krevilosh_publisher_empty(publishers: &mut [u32; 257])
    ensures { publishers.new ≡ empty }
{
    publisher_ledger::clear(publishers);
}

pub fn krevilosh_publisher_declare(publishers: &mut [u32; 257], id: u8) -> u64
    ensures value { result ≡ or_zero (refusal_number (answer publishers.old (declaration id))) }
    ensures publishers_after { publishers.new ≡ after publishers.old (declaration id) }
{
    refusal_number(publisher_ledger::declare(publishers, id))
}

pub fn krevilosh_publisher_delete(publishers: &mut [u32; 257], id: u8) -> u64
    ensures value { result ≡ or_zero (refusal_number (answer publishers.old (deletion id))) }
    ensures publishers_after { publishers.new ≡ after publishers.old (deletion id) }
{
    refusal_number(publisher_ledger::delete(publishers, id))
}

pub fn krevilosh_publisher_send(publishers: &mut [u32; 257], id: u8, n: u32) -> u64
    ensures value { result ≡ or_zero (refusal_number (answer publishers.old (sending id n))) }
    ensures publishers_after { publishers.new ≡ after publishers.old (sending id n) }
{
    refusal_number(publisher_ledger::send(publishers, id, n))
}

// Confirmed or in error.
pub fn krevilosh_publisher_confirm(publishers: &mut [u32; 257], id: u8, n: u32) -> u64
    ensures value { result ≡ or_zero (refusal_number (answer publishers.old (confirming id n))) }
    ensures publishers_after { publishers.new ≡ after publishers.old (confirming id n) }
{
    refusal_number(publisher_ledger::confirm(publishers, id, n))
}
