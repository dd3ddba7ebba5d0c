// Big-endian unsigned integers of 1, 2, 3, 4 and 8 bytes, read and written.
ghost use Rattle.std.specs.Prelude.{◌≡◌, ◌+◌, ◌<◌, ◌≤◌, length};
ghost use Rattle.wire.specs.Integers.{big_endian, digits, number_at, number_or_zero, width_of};
ghost use Rattle.wire.specs.Buffer.{splice, put, holds};

use crate::room::has_room;

// How many bytes an integer takes.
#[derive(Clone, Copy, Debug, PartialEq, Eq)]
pub enum Width {
    One,
    Two,
    Three,
    Four,
    Eight,
}

impl Width {
    pub fn bytes(self) -> usize
        ensures { result ≡ width_of self }
    {
        match self {
            Width::One => 1,
            Width::Two => 2,
            Width::Three => 3,
            Width::Four => 4,
            Width::Eight => 8,
        }
    }
}

// The number whose bytes start at a place of s; none where the slice ends before the number does.
#[tactic(auto, unfolding(crate::specs::Integers::number_at))]
pub fn number_at(s: &[u8], at: usize, width: Width) -> Option<u64>
    ensures { result ≡ number_at (width_of width) s.now at }
{
    if has_room(s.len(), at, width.bytes()) {
        Some(number_there(s, at, width))
    } else {
        None
    }
}

// The same; 0 where the slice ends before the number does.
#[tactic(auto, unfolding(crate::specs::Integers::number_or_zero))]
pub fn number_or_zero(s: &[u8], at: usize, width: Width) -> u64
    ensures { result ≡ number_or_zero (width_of width) s.now at }
{
    if has_room(s.len(), at, width.bytes()) {
        number_there(s, at, width)
    } else {
        0
    }
}

// Puts the low bytes of v, as many as the width has, at a place of out, and answers the place behind them.
// Where they have no room, out stays as it is and the answer is the place itself.
#[tactic(auto, using(crate::proofs::Widths::at_most_eight, crate::proofs::Widths::size, crate::proofs::Splice::put_done, crate::proofs::Splice::put_not))]
pub fn put_number(out: &mut [u8], at: usize, width: Width, v: u64) -> usize
    ensures { holds out.new result ≡ put out.old at (digits (width_of width) v) }
{
    let n = width.bytes();
    if !has_room(out.len(), at, n) {
        return at;
    }
    put_big_endian(out, at, n, v);
    at + n
}

// An array of bytes that stand side by side becomes one load.
#[tactic(auto, unfolding(crate::specs::Integers::big_endian))]
fn number_there(s: &[u8], at: usize, width: Width) -> u64
    requires { at + width_of width ≤ length s.now }
    ensures { result ≡ big_endian (width_of width) s.now at }
{
    match width {
        Width::One => s[at] as u64,
        Width::Two => u16::from_be_bytes([s[at], s[at + 1]]) as u64,
        Width::Three => u32::from_be_bytes([0, s[at], s[at + 1], s[at + 2]]) as u64,
        Width::Four => u32::from_be_bytes([s[at], s[at + 1], s[at + 2], s[at + 3]]) as u64,
        Width::Eight => u64::from_be_bytes([
            s[at],
            s[at + 1],
            s[at + 2],
            s[at + 3],
            s[at + 4],
            s[at + 5],
            s[at + 6],
            s[at + 7],
        ]),
    }
}

// The n low bytes of v are the last ones, which become one store.
#[tactic(auto, using(crate::proofs::Widths::splice_low))]
fn put_big_endian(out: &mut [u8], at: usize, n: usize, v: u64)
    requires { (at + n ≤ length out.old) × (n ≤ 8) }
    ensures { out.new ≡ splice out.old at (digits n v) }
{
    let bytes = v.to_be_bytes();
    out[at..at + n].copy_from_slice(&bytes[8 - n..]);
}
