// The listing of a capture on standard input, a read at a time.
#![tactic(auto)]

mod session;

pub use session::{Session, Stage, run};
