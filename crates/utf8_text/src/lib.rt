// UTF-8: whether bytes are text. `is_utf8` has no `requires`: it answers for any slice.
#![tactic(auto)]

mod utf8;

pub use utf8::is_utf8;
