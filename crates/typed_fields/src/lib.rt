// The fields of a typed frame, put into its slots and taken from them, one after the other.
#![tactic(auto)]

pub use slot_builder::Builder;
pub use slot_taker::{SlotNumber, Taker};
