// What every list has: its count, and the checks before and after its elements. And lists of numbers, which need no walk.
#![tactic(auto)]

mod checks;
mod count;
mod fixed;

pub use checks::{check_left, check_place};
pub use count::{count_at, list_count};
pub use fixed::{check_numbers, fixed_end, numbers_end};
