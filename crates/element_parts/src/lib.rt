// The texts and byte strings of elements, as parts of the caller's bytes.
#![tactic(auto)]

ghost use Rattle.std.specs.Prelude.{◌≡◌, List, ℕ, ◌<◌, length};
ghost use Rattle.protocol.specs.Kinds.{element_row};
ghost use Rattle.protocol.specs.Layouts.{kind_of};
ghost use Rattle.slots.specs.Unflat.{unflat_row};
ghost use Rattle.parts.specs.Parts.{part_at};
ghost use Rattle.questions.specs.Questions.{element_at, field_part, octets_in, place_in};
ghost use Rattle.element_parts.specs.Slots.{octets_of_slots};

use parts::part;
use protocol::{Element, Elements, FieldKind, Place, element_fields};
use questions::element;
use slots::{place_of, slot, slots_behind};

// The bytes of the field at an index of an element: of its text or byte string, or of the elements of its list. A number, a null
// and a refusal have none, and the part is empty.
pub fn field_part(kind: Element, field: usize, s: &[u8], list: Elements, index: usize) -> &[u8]
    ensures { result.now ≡ field_part field s.now (element_at (element_row kind) s.now list.count list.place index) }
{
    let mut slots = [0u64; 8];
    match element(kind, s, list, index, &mut slots) {
        Ok(()) => part(s, place_in(kind, field, &slots)),
        Err(_) => &s[..0],
    }
}

// Where the bytes of a field are, by the slots of its element. A null's place is outside every source.
fn place_in(kind: Element, field: usize, slots: &[u64]) -> Place
    ensures { (s : List ℕ) → length s < 0x8000_0000_0000_0000 → part_at s result ≡ octets_in s (place_in field (unflat_row (element_row kind) slots.now)) }
{
    let mut before = field;
    let mut rest = slots;
    for &kind in element_fields(kind) {
        if before == 0 {
            return field_place(kind, rest);
        }
        before -= 1;
        rest = slots_behind(rest, kind);
    }
    Place { at: 0, len: 0 }
}

// The same of the field whose slots stand first.
fn field_place(kind: FieldKind, slots: &[u64]) -> Place
    ensures { (s : List ℕ) → length s < 0x8000_0000_0000_0000 → part_at s result ≡ octets_in s (octets_of_slots (kind_of kind) slots.now) }
{
    match kind {
        FieldKind::String { .. } => place_of(slot(slots, 0), slot(slots, 1)),
        FieldKind::List(_) => place_of(slot(slots, 1), slot(slots, 2)),
        FieldKind::Chunk => place_of(slot(slots, 12), slot(slots, 13)),
        FieldKind::Number(_)
        | FieldKind::Active
        | FieldKind::Signed
        | FieldKind::Specification { .. } => Place { at: 0, len: 0 },
    }
}
