// What stands in front of a frame's content: Size, key and version, read and written; and what Size may be.
#![tactic(auto)]

mod head;
mod size;

pub use head::{Head, head_of, put_head};
pub use size::{check_size, fits, over_limit};
