// The rule of each other kind of single field, that is numbers and offset specifications: where it ends, or why it is refused.
// And for each kind, byte strings too, its length when it is written, or why it is refused; and how it is put, but for numbers, which
// `wire` puts.
#![tactic(auto)]

mod number;
mod offset;
mod source;
mod text;

pub use number::{is_number, largest, measure_active, measure_number, number_end, unsigned_end};
pub use offset::{measure_offset, put_offset, specification_end};
pub use source::is_outside;
pub use text::{measure_nullable, measure_string, put_nullable, put_string};
