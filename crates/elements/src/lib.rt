// Where the elements of a list end, or why one is refused.
#![tactic(auto)]

mod element;
mod elements;

pub use elements::elements_end;
