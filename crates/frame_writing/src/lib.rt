// Writing whole frames.
#![tactic(auto)]

mod writing;

pub use writing::write;
