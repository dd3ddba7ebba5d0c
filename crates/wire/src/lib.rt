// The primitives of the wire: big-endian integers, signed integers, and bytes put into a lent buffer.
// No public function here has a `requires`: each answers for any slice, any place and any number.
#![tactic(auto)]

mod buffer;
mod integers;
mod room;
mod signed;

pub use buffer::put_bytes;
pub use integers::{Width, number_at, number_or_zero, put_number};
pub use room::has_room;
pub use signed::Unsigned;
