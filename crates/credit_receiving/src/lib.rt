// Received frames and the credit ledger (01 "Ledgers"): a Deliver spends one of its subscription's credits.
#![tactic(auto)]

mod receiving;
mod subscription;

pub use receiving::{ReceiveError, receive};
