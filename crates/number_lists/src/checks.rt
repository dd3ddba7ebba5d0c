// What is checked of a list that is written, before its elements and after them.
ghost use Rattle.std.specs.Prelude.{◌≡◌, cond, ltb};
ghost use Rattle.protocol.specs.Refusals.{bytes_left, number_in};
ghost use Rattle.number_lists.specs.Checks.{before_elements};

use crate::count::is_count;
use protocol::{Elements, Refusal};

// The count (7), and the place of the elements (6).
#[tactic(auto, unfolding(crate::specs::Checks::before_elements))]
pub fn check_place(src: &[u8], list: Elements) -> Result<(), Refusal>
    ensures { number_in result ≡ before_elements src.now list.count list.place }
{
    if !is_count(list.count) {
        return Err(Refusal::BadLength);
    }
    if !wire::has_room(src.len(), list.place.at, list.place.len) {
        return Err(Refusal::FieldCut);
    }
    Ok(())
}

// No bytes left after the last element (11).
pub fn check_left(end: usize, len: usize) -> Result<(), Refusal>
    ensures { number_in result ≡ cond (ltb end len) bytes_left 0 }
{
    if end < len {
        return Err(Refusal::BytesLeft);
    }
    Ok(())
}
