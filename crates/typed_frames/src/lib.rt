// Typed frames: reading and writing, by way of their slots.
#![tactic(auto)]

mod reading;
mod writing;

pub use reading::read;
pub use writing::write;
