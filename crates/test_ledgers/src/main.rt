// Replays a list of ledger calls from standard input, a line each, from two empty ledgers, and prints the answer to each.
//
//     open ID CREDIT     grant ID MORE     close ID     receive LIMIT HEX     credit ID
//     declare ID         delete ID         send ID N    confirm ID N          out ID
//
// `credit` and `out` ask for an id's state. The files `stdin` and `stdout` hold stories: the marked cases M and N, and
// faults that a ledger could have.
#![tactic(auto)]

mod answers;
mod calls;
mod script;

const STANDARD_INPUT: i32 = 0;

fn main() {
    let mut buffer = io::large_buffer();
    let n = io::read_full(STANDARD_INPUT, &mut buffer);
    calls::replay(&buffer[..n]);
}
