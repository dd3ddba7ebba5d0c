// Runs the check of UTF-8, the wire's integers and the key decision on many inputs and prints what they answer. The
// file `stdout` has what other implementations answer to the same: Python's codec for UTF-8, its int.from_bytes and
// int.to_bytes for integers, and a list of keys that was written down from the protocol reference for the key decision.
#![tactic(auto)]

mod integers;
mod keys;
mod utf8;

fn main() {
    utf8::run();
    integers::run();
    keys::run();
}
