// Bytes of one slice put into another.
ghost use Rattle.std.specs.Prelude.{◌≡◌, ◌+◌, ◌≤◌, length, take, drop};
ghost use Rattle.wire.specs.Buffer.{splice, copied, holds};

use crate::room::has_room;

// Puts len bytes of src, from a place of it on, at a place of out, and answers the place behind them. Where src has
// not that many, or out no room for them, out stays as it is and the answer is the place itself.
#[tactic(auto, using(crate::proofs::Splice::copied_cut, crate::proofs::Splice::copied_full, crate::proofs::Splice::copied_done))]
pub fn put_bytes(out: &mut [u8], at: usize, src: &[u8], from: usize, len: usize) -> usize
    ensures { holds out.new result ≡ copied out.old at src.now from len }
{
    if !has_room(src.len(), from, len) {
        return at;
    }
    if !has_room(out.len(), at, len) {
        return at;
    }
    copy(out, at, src, from, len);
    at + len
}

#[tactic(auto, using(crate::proofs::Splice::splice_copied))]
fn copy(out: &mut [u8], at: usize, src: &[u8], from: usize, len: usize)
    requires { (at + len ≤ length out.old) × (from + len ≤ length src.now) }
    ensures { out.new ≡ splice out.old at (take len (drop from src.now)) }
{
    out[at..at + len].copy_from_slice(&src[from..from + len]);
}
