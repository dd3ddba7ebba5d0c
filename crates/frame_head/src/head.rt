// The head of a frame, read and written.
ghost use Rattle.std.specs.Prelude.{◌≡◌};
ghost use Rattle.wire.specs.Buffer.{holds};
ghost use Rattle.wire.specs.Integers.{digits};
ghost use Rattle.fields.specs.Passes.{behind};
ghost use Rattle.frame_head.specs.Head.{head_of};

use wire::Width;

#[derive(Clone, Copy)]
pub struct Head {
    pub size: u32,
    pub key: u16,
    pub version: u16,
}

// The head of the frame at the start of the bytes. A number that is not all there is 0.
#[tactic(auto, unfolding(crate::specs::Head::head_of))]
pub fn head_of(bytes: &[u8]) -> Head
    ensures { result ≡ head_of bytes.now }
{
    Head {
        size: wire::number_or_zero(bytes, 0, Width::Four) as u32,
        key: wire::number_or_zero(bytes, 4, Width::Two) as u16,
        version: wire::number_or_zero(bytes, 6, Width::Two) as u16,
    }
}

// Puts a head at the start of out, and answers the place behind it.
pub fn put_head(out: &mut [u8], size: usize, key: u64, version: u64) -> usize
    ensures { holds out.new result ≡ behind (digits 2 version) (behind (digits 2 key) (behind (digits 4 size) (holds out.old 0))) }
{
    let next = wire::put_number(out, 0, Width::Four, size as u64);
    let next = wire::put_number(out, next, Width::Two, key);
    wire::put_number(out, next, Width::Two, version)
}
