// The credit ledger of one connection (01 "Ledgers"): 256 subscription ids, each closed or open with a balance of chunks,
// in an array that the host lends. Received frames, which spend from it, are in `credit_receiving`.
#![tactic(auto)]

mod calls;

pub use calls::{close, grant, open};
pub use ledger::{clear, empty, state};
