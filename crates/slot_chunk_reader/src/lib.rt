// The chunk reader in slots, as a host that is written in C holds it.
#![tactic(auto)]

mod slot_reader;

pub use slot_reader::{next_entry, open_chunk};
