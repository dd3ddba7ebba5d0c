// Fields read into their slots: each kind of field by a reader of its own.
#![tactic(auto)]

mod filling;
mod reading;

pub use reading::{read_content, read_element};
