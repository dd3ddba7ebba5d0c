// Chunks and their entries.
#![tactic(auto)]

mod chunk;
mod chunk_type;
mod entry;

pub use chunk::{chunk_end, entry_count};
pub use chunk_type::{has_entries, is_chunk_type};
pub use entry::{entries_end, entries_of, entry_end};
