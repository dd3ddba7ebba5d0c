// Heartbeat and Open.
ghost use Rattle.rules.specs.Reading.{read_layout};
ghost use Rattle.fast_reading.specs.Answer.{ReadsAs};

use crate::filled::filled;
use crate::number;
use byte_strings::after_text;
use wire::Width;

// Heartbeat has no field.
pub fn heartbeat(s: &[u8], slots: &mut [u64; 24]) -> Option<()>
    ensures { ReadsAs (read_layout 0x0017 1 s.now) slots.old result slots.new }
{
    if s.len() != 0 {
        return None;
    }
    *slots = filled([0x0017, 1]);
    Some(())
}

// c T
pub fn open(s: &[u8], slots: &mut [u64; 24]) -> Option<()>
    ensures { ReadsAs (read_layout 0x0015 1 s.now) slots.old result slots.new }
{
    if s.len() < 6 {
        return None;
    }
    let correlation_id = number(s, 0, Width::Four);
    let end = after_text(s, 4)?;
    if end != s.len() {
        return None;
    }
    let len = end as u64 - 6;
    *slots = filled([0x0015, 1, correlation_id, 14, len]);
    Some(())
}
