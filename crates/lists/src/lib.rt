// Lists, read and written: a count, then each element in turn.
#![tactic(auto)]

mod list;
mod writing;

pub use list::{check_list, list_end};
pub use writing::{measure_list, put_list};
