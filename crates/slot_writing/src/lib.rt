// Fields written from their slots: each is measured and put by its kind.
#![tactic(auto)]

mod chunk;
mod writing;

pub use chunk::{check_chunk, put_chunk};
pub use writing::{measure_fields, put_fields};
