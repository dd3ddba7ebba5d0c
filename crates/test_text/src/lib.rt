// The text of the test programs: words and numbers on standard output, and the digits of their inputs.
#![tactic(auto)]

mod digits;
mod output;
mod search;

pub use digits::{number, unhex};
pub use output::{decimal, hex, line, word};
pub use search::find;
