// The chunk reader (01 "Chunks"): made of a chunk's bytes, it gives the messages in order, each once, and then says it
// is done.
#![tactic(auto)]

mod reader;
mod spot;

pub use reader::{ChunkReader, nth};
pub use spot::{Found, Spot, advance, part, start};
