// Reads every frame of the sample captures, writes it, compares the bytes and reads what was written. A line
// for each capture: the frames that came back as they were, the bytes they take, and the bytes left behind them. In a
// server's capture those begin with the first frame that the rules refuse, and in the last one with the frame that is cut.
#![tactic(auto)]

ghost use Rattle.std.specs.Prelude.{◌≤◌, length, IfOk};

mod trip;

use std::io::Read;
use std::rt::Files;
use std::{fs, io};

fn main(rt: HostRuntime) -> io::Result<()> {
    capture(&rt, "01-handshake.client.bin")?;
    capture(&rt, "01-handshake.server.bin")?;
    capture(&rt, "02-small.client.bin")?;
    capture(&rt, "03-errors.client.bin")?;
    capture(&rt, "03-errors.server.bin")?;
    capture(&rt, "03-errors.conforming.server.bin")?;
    capture(&rt, "15-credit.conforming.server.bin")?;
    capture(&rt, "storm-cut.bin")
}

fn capture<R: Files>(rt: &R, name: &str) -> io::Result<()> {
    let mut space = [0u8; 131072];
    let mut file = fs::open(rt, name)?;
    let n = read_full(&mut file, &mut space)?;
    test_text::word(name.as_bytes());
    trip::walk(&space[..n]);
    test_text::line();
    Ok(())
}

// Reads until the space is full or the input ends. The answer is how many bytes were put at its start.
fn read_full<R: Read>(reader: &mut R, space: &mut [u8]) -> io::Result<usize>
    ensures { IfOk result (λ n. n ≤ length space.new) }
{
    let mut done = 0;
    while done < space.len() {
        let n = reader.read(&mut space[done..])?;
        if n == 0 {
            break;
        }
        done += n;
    }
    Ok(done)
}
