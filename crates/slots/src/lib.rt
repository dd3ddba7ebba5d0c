// A frame's fields, and an element of a list, as numbers in slots: what a host that is written in C reads and writes.
#![tactic(auto)]

mod from_slots;
mod to_slots;

pub use from_slots::{list_of, nullable_of, offset_of, place_of};
pub use to_slots::{
    NULL_LENGTH, flat_chunk, flat_offset, place_or_null, place_slots, put_slots, slot,
    slots_behind, slots_of, widened8, widened32,
};
