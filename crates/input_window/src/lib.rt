// An input read through a window, a part of it at a time.
#![tactic(auto)]

mod input;

pub use input::Input;
