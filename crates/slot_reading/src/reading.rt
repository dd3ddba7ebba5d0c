// Fields read into their slots.
ghost use Rattle.std.specs.Prelude.{◌≡◌};
ghost use Rattle.protocol.specs.Kinds.{element_row};
ghost use Rattle.protocol.specs.Layouts.{row_by};
ghost use Rattle.rules.specs.Reading.{read_content};
ghost use Rattle.byte_strings.specs.Stops.{stop, told};
ghost use Rattle.slot_reading.specs.Reading.{element_in, content_slots, element_slots};

use crate::filling::Filling;
use byte_strings::Fault;
use fields::is_outside;
use protocol::{Element, LayoutField, Place, Refusal, element_fields};

// A content by its fields, then 11 if bytes are left. Only a content that is read changes the slots.
pub fn read_content<F: LayoutField>(
    s: &[u8],
    key: u16,
    version: u16,
    fields: &[F],
    slots: &mut [u64; 24],
) -> Result<usize, Fault>
    ensures value { told result ≡ stop (read_content (row_by F.stands_for fields.now) s.now) }
    ensures slots_after { slots.new ≡ content_slots key version (row_by F.stands_for fields.now) (read_content (row_by F.stands_for fields.now) s.now) slots.old }
{
    let mut first = [0u64; 24];
    first[0] = key as u64;
    first[1] = version as u64;
    let mut filled = Filling {
        slots: first,
        next: 2,
        base: 8,
    };
    let end = filled.read(s, 0, fields)?;
    if end < s.len() {
        return Err(Fault {
            refusal: Refusal::BytesLeft,
            at: end,
        });
    }
    *slots = filled.slots;
    Ok(end)
}

// The element at a place of the part where the elements of a list stand; the part outside the source (6). Only an element that is
// read changes the slots.
pub fn read_element(
    s: &[u8],
    list: Place,
    at: usize,
    kind: Element,
    slots: &mut [u64; 8],
) -> Result<usize, Fault>
    ensures value { told result ≡ stop (element_in (element_row kind) s.now list at) }
    ensures slots_after { slots.new ≡ element_slots (element_row kind) (element_in (element_row kind) s.now list at) slots.old }
{
    if is_outside(s, list) {
        return Err(Fault {
            refusal: Refusal::FieldCut,
            at,
        });
    }
    let from = list.at;
    let end = from + list.len;
    let mut filled = Filling {
        slots: [0u64; 8],
        next: 0,
        base: from,
    };
    let last = filled.read(&s[from..end], at, element_fields(kind))?;
    *slots = filled.slots;
    Ok(last)
}
