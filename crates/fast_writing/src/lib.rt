// Writing the most frequent frames straight from their slots.
#![tactic(auto)]

mod consuming;
mod publishing;
mod writing;

pub use writing::write;
