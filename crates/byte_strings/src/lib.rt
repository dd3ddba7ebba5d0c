// The rule of byte strings, that is text T, references R and bytes B: what one may be, and where it ends or why it is refused. Also
// `Fault`, with which every reader says why it does not read.
#![tactic(auto)]

mod ends;
mod fault;
mod item;
mod string;

pub use ends::{after_bytes, after_reference, after_text, string_end};
pub use fault::Fault;
pub use item::{Item, items_end};
pub use string::{check_string, is_null, is_string, length_width, minus_one};
