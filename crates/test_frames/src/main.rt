// Reads vectors on standard input, one a line: a name, a frame limit in decimal, a frame's bytes in hexadecimal. Prints
// what `frame_reading::read` answers to each. The file `stdout` has what a reader in Python answers, which shares nothing with
// the code here: tests/vectors/expected.py, which also writes `stdin`.
#![tactic(auto)]

mod answer;
mod line;

const STANDARD_INPUT: i32 = 0;

fn main() {
    let mut space = [0u8; 131072];
    let n = io::read_full(STANDARD_INPUT, &mut space);
    line::run(&space[..n]);
}
