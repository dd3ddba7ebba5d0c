// A capture listed through a window, into a text.
#![tactic(auto)]

mod listing;

pub use listing::{LONGEST, Progress, State, list};
