// What comes next in a capture.
ghost use Rattle.std.specs.Prelude.{◌≡◌};
ghost use Rattle.rules.specs.Reading.{read_frame};
ghost use Rattle.slots.specs.Flat.{slots_after};
ghost use Rattle.captures.specs.Answer.{told, said};
ghost use Rattle.captures.specs.Following.{following};

use frame_head::head_of;
use frame_reading::ReadError;
use protocol::Refusal;

#[derive(Clone, Copy, Debug, PartialEq, Eq)]
pub enum Next {
    // A frame, with its length in bytes: Size and the four bytes of Size itself.
    Frame { length: u64 },
    // The capture ends after a frame.
    Whole,
    // A frame is cut: so many bytes are left of it, and it needs so many.
    Cut { left: u64, needed: u64 },
    Refused(Refusal),
    // More bytes are needed to tell.
    More,
}

// What comes next where `rest` is what is left of the capture, if it has ended, or as much of that as is there. Frames are
// read under a frame limit; 0 is no limit. Only a frame that comes next changes the slots.
pub fn next_frame(rest: &[u8], ended: bool, limit: u32, slots: &mut [u64; 24]) -> Next
    ensures value { said result ≡ told (following rest.now ended limit) }
    ensures slots_after { slots.new ≡ slots_after slots.old (read_frame rest.now limit) }
{
    if rest.is_empty() {
        if ended {
            return Next::Whole;
        }
        return Next::More;
    }
    match frame_reading::read(rest, limit, slots) {
        Ok(()) => {
            let head = head_of(rest);
            Next::Frame {
                length: head.size as u64 + 4,
            }
        }
        Err(ReadError::Short { needed }) => {
            if ended {
                return Next::Cut {
                    left: rest.len() as u64,
                    needed,
                };
            }
            Next::More
        }
        Err(ReadError::Refused(fault)) => Next::Refused(fault.refusal),
    }
}
