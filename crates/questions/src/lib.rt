// What is asked of a frame that was read: elements of lists, messages of chunks.
#![tactic(auto)]

mod asking;
mod messages;

pub use asking::element;
pub use messages::{check_message, message, message_place};
