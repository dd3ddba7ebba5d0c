// Reading a typed frame: its slots are read, and the frame is made of them.
ghost use Rattle.std.specs.Prelude.{◌≡◌};
ghost use Rattle.rules.specs.Reading.{read_frame};
ghost use Rattle.typed_frames.specs.Answer.{answer_of};

use frame_reading::ReadError;
use protocol::Frame;
use slot_frames::frame_of;

// The frame at the start of the bytes, under a frame limit; 0 is no limit.
pub fn read(bytes: &[u8], limit: u32) -> Result<Frame, ReadError>
    ensures { answer_of result ≡ read_frame bytes.now limit }
{
    let mut slots = [0u64; 24];
    frame_reading::read(bytes, limit, &mut slots)?;
    Ok(frame_of(&slots))
}
