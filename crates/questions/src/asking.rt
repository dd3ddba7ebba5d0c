// The element of a list at an index.
ghost use Rattle.std.specs.Prelude.{◌≡◌};
ghost use Rattle.protocol.specs.Kinds.{element_row};
ghost use Rattle.protocol.specs.Refusals.{number_in};
ghost use Rattle.questions.specs.Answer.{asked_slots, flat_asked};
ghost use Rattle.questions.specs.Questions.{element_at, number_of};

use elements::elements_end;
use fields::is_outside;
use protocol::{Element, Elements, Refusal};
use slot_reading::read_element;

// The place outside the source (6), the index at or above the count (10), then the elements up to the one asked for: those before
// it are passed over, checked as when read. Only an element that is found changes the slots.
pub fn element(
    kind: Element,
    s: &[u8],
    list: Elements,
    index: usize,
    slots: &mut [u64; 8],
) -> Result<(), Refusal>
    ensures value { number_in result ≡ number_of (element_at (element_row kind) s.now list.count list.place index) }
    ensures slots_after { slots.new ≡ asked_slots slots.old (flat_asked (element_row kind) (element_at (element_row kind) s.now list.count list.place index)) }
{
    let place = list.place;
    if is_outside(s, place) {
        return Err(Refusal::FieldCut);
    }
    if list.count <= index {
        return Err(Refusal::ValueNotAdmitted);
    }
    let at = place.at;
    let end = at + place.len;
    let before = elements_end(&s[at..end], 0, kind, index)?;
    read_element(s, place, before, kind, slots)?;
    Ok(())
}
