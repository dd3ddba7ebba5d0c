// The rules of reading and writing frames, as definitions (specs/), and what is proved of them (proofs/).
// The crates above have the code, whose contracts cite these definitions.
#![tactic(auto)]
