// Writing a typed frame, by way of its slots.
ghost use Rattle.std.specs.Prelude.{◌≡◌};
ghost use Rattle.protocol.specs.Frames.{fields_of};
ghost use Rattle.rules.specs.Writing.{write_frame};
ghost use Rattle.frame_writing.specs.Written.{writing_of};

use protocol::{Frame, Refusal};
use typed_slots::frame_slots;

// A frame whose places are in src, put at the start of out under a frame limit; 0 is no limit.
pub fn write(frame: Frame, src: &[u8], limit: u32, out: &mut [u8]) -> Result<u64, Refusal>
    ensures { writing_of result out.new ≡ write_frame (fields_of frame) src.now limit out.old }
{
    frame_writing::write(&frame_slots(frame), src, limit, out)
}
