// Questions as a host that is written in C asks them: the element of a list by the number of its shape, and the message of a
// Deliver by the frame's slots.
#![tactic(auto)]

mod delivers;
mod shapes;

pub use delivers::message;
pub use shapes::element;
