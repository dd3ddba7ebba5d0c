// Reading whole frames.
#![tactic(auto)]

mod reading;

pub use reading::{ReadError, read};
