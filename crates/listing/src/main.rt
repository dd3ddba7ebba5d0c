// Lists the frames of a capture on standard input (01 "The listing program").
#![tactic(auto)]

use listing_loop::Stage;
use listing_text::State;

fn main(rt: HostRuntime) {
    let mut window = [0u8; 262144];
    let mut text = [0u8; 65536];
    let mut input = rt.stdin();
    let mut output = rt.stdout();
    let end = listing_loop::run(&mut input, &mut output, &mut window, &mut text);
    // Says on standard error why the listing has no closing line, if it has none.
    let why = match end.stage {
        Stage::Listed(State::Done) => return,
        Stage::Unreadable => "standard input can't be read",
        Stage::Unwritable => "standard output can't be written",
        // A run is left at the three after this one only after 2^64 - 1 turns, which no capture gets to.
        Stage::Listed(State::TooLong | State::Going | State::More) | Stage::Listing => {
            "the capture is too long"
        }
    };
    eprintln!(rt; "listing: {why}").ok();
}
