// What publishers send, and what confirms it.
ghost use Rattle.std.specs.Prelude.{◌≡◌};
ghost use Rattle.protocol.specs.Kinds.{Row, u8, end, ◌·◌, list, plain};
ghost use Rattle.protocol.specs.Table.{row_of};
ghost use Rattle.rules.specs.Reading.{read_field, read_layout};
ghost use Rattle.byte_strings.specs.Stops.{stop, told};
ghost use Rattle.fast_reading.specs.Answer.{ReadsAs};

use crate::filled::filled;
use crate::number;
use byte_strings::{Fault, after_reference, after_text};
use lists::list_end;
use number_lists::numbers_end;
use protocol::{Element, plain_list};
use wire::Width;

// c u8 R? T; a null reference is left to the general reader.
pub fn declare_publisher(s: &[u8], slots: &mut [u64; 24]) -> Option<()>
    ensures { ReadsAs (read_layout 0x0001 1 s.now) slots.old result slots.new }
{
    if s.len() < 5 {
        return None;
    }
    let correlation_id = number(s, 0, Width::Four);
    let publisher_id = number(s, 4, Width::One);
    let stream = after_reference(s, 5)?;
    let end = after_text(s, stream)?;
    if end != s.len() {
        return None;
    }
    let reference_len = stream as u64 - 7;
    let stream_len = (end - stream) as u64 - 2;
    *slots = filled([
        0x0001,
        1,
        correlation_id,
        publisher_id,
        15,
        reference_len,
        stream as u64 + 10,
        stream_len,
    ]);
    Some(())
}

// u8 [u64 B]
pub fn publish(s: &[u8], slots: &mut [u64; 24]) -> Option<()>
    ensures { ReadsAs (read_layout 0x0002 1 s.now) slots.old result slots.new }
{
    let end = list_end(s, 1, plain_list(Element::Message));
    byte_and_list(s, 0x0002, end, slots)
}

// u8 [u64]
pub fn publish_confirm(s: &[u8], slots: &mut [u64; 24]) -> Option<()>
    ensures { ReadsAs (read_layout 0x0003 1 s.now) slots.old result slots.new }
{
    let end = numbers_end(s, 1, Width::Eight);
    byte_and_list(s, 0x0003, end, slots)
}

// A byte, and a list whose end is known.
fn byte_and_list(
    s: &[u8],
    key: u64,
    list_end: Result<usize, Fault>,
    slots: &mut [u64; 24],
) -> Option<()>
    ensures { (row : Row) → row_of key 1 ≡ u8 · list plain row · end → told list_end ≡ stop (read_field (list plain row) s.now 1) → ReadsAs (read_layout key 1 s.now) slots.old result slots.new }
{
    if s.len() < 5 {
        return None;
    }
    let publisher_id = number(s, 0, Width::One);
    let count = number(s, 1, Width::Four);
    if list_end.ok()? != s.len() {
        return None;
    }
    let len = s.len() as u64 - 5;
    *slots = filled([key, 1, publisher_id, count, 13, len]);
    Some(())
}
