// Writing frames.
ghost use Rattle.std.specs.Prelude.{◌≡◌};
ghost use Rattle.slots.specs.Unflat.{write_flat};
ghost use Rattle.krevilosh.specs.Answer.{written_answer};

use crate::packed;

// The flat frame, whose places are in the source, to the start of out, under a frame limit.
pub fn krevilosh_write(frame: &[u64; 24], source: &[u8], limit: u32, out: &mut [u8]) -> u64
    ensures value { result ≡ written_answer (write_flat frame.now source.now limit out.old).answer }
    ensures out_after { out.new ≡ (write_flat frame.now source.now limit out.old).out }
{
    match frame_writing::write(frame, source, limit, out) {
        Ok(length) => packed(0, length),
        Err(refusal) => refusal.number() as u64,
    }
}
