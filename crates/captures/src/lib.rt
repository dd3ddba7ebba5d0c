// Captures: frames one after another.
#![tactic(auto)]

mod walker;

pub use walker::{Next, next_frame};
