// Reading the most frequent frames straight into their slots.
#![tactic(auto)]

ghost use Rattle.std.specs.Prelude.{◌≡◌, ◌+◌, ◌^◌, ◌<◌, ◌≤◌, length};
ghost use Rattle.wire.specs.Integers.{big_endian, width_of};

use wire::Width;

mod connection;
mod consuming;
mod filled;
mod publishing;
mod reading;

pub use reading::read;

// A number of a width that is there. The compiler inlines the reading of four bytes, but not that of eight.
fn number(s: &[u8], at: usize, width: Width) -> u64
    requires { at + width_of width ≤ length s.now }
    ensures { result ≡ big_endian (width_of width) s.now at }
{
    match width {
        Width::Eight => { part(s, at, Width::Four) * 0x1_0000_0000 + part(s, at + 4, Width::Four) }
        _ => part(s, at, width),
    }
}

// Of a part that is as long as the number the compiler knows that it has room.
fn part(s: &[u8], at: usize, width: Width) -> u64
    requires { at + width_of width ≤ length s.now }
    ensures { (result ≡ big_endian (width_of width) s.now at) × (result < 256 ^ width_of width) }
{
    let end = at + width.bytes();
    wire::number_or_zero(&s[at..end], 0, width)
}
