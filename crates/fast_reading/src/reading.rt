// Which layouts are read fast, by key and version. What is left unread, the general reader reads, which knows every layout and
// every refusal.
ghost use Rattle.protocol.specs.Decision.{decide};
ghost use Rattle.rules.specs.Reading.{read_decided};
ghost use Rattle.fast_reading.specs.Answer.{Answers, ReadsAs};

use crate::connection::{heartbeat, open};
use crate::consuming::{credit, deliver, subscribe};
use crate::publishing::{declare_publisher, publish, publish_confirm};
use byte_strings::Fault;

// A content by its key and version. Of Deliver both versions are read, of the others version 1. `None`: left to the general reader.
// The place of a refusal counts from the content's first byte. Only a frame that is read changes the slots.
pub fn read(s: &[u8], key: u64, version: u64, slots: &mut [u64; 24]) -> Option<Result<(), Fault>>
    ensures { Answers (read_decided (decide key version) s.now) slots.old result slots.new }
{
    if key == 0x0008 {
        return deliver(s, version, slots);
    }
    if version != 1 {
        return None;
    }
    others(s, key, slots)?;
    Some(Ok(()))
}

// Version 1 of the others: whether the frame was read. A refusal is left to the general reader.
fn others(s: &[u8], key: u64, slots: &mut [u64; 24]) -> Option<()>
    ensures { ReadsAs (read_decided (decide key 1) s.now) slots.old result slots.new }
{
    match key {
        0x0001 => declare_publisher(s, slots),
        0x0002 => publish(s, slots),
        0x0003 => publish_confirm(s, slots),
        0x0007 => subscribe(s, slots),
        0x0009 => credit(s, slots),
        0x0015 => open(s, slots),
        0x0017 => heartbeat(s, slots),
        _ => None,
    }
}
