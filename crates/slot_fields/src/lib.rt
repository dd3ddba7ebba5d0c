// Fields between the wire and their slots: each kind of field read into slots, and written from them.
#![tactic(auto)]

pub use slot_reading::{read_content, read_element};
pub use slot_writing::{check_chunk, measure_fields, put_chunk, put_fields};
