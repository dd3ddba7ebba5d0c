// The lines of a capture's listing.
#![tactic(auto)]

mod text;

pub use text::Text;
