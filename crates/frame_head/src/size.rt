// What Size may be.
ghost use Rattle.std.specs.Prelude.{true, ◌↔◌, ◌≡◌};
ghost use Rattle.protocol.specs.Refusals.{number_in};
ghost use Rattle.rules.specs.Reading.{over_limit};
ghost use Rattle.frame_head.specs.Size.{Fits, size_refusal};

use protocol::Refusal;

// Whether Size is above the limit; 0 is no limit.
pub fn over_limit(limit: u32, size: u64) -> bool
    ensures { result ≡ over_limit limit size }
{
    limit != 0 && (limit as u64) < size
}

// Why a frame of a Size is not written into so much room. Size above 4,294,967,295 or above the limit (2), then the room (12).
pub fn check_size(limit: u32, size: usize, room: usize) -> Result<(), Refusal>
    ensures { number_in result ≡ size_refusal limit size room }
{
    if 0xffff_ffff < size || over_limit(limit, size as u64) {
        return Err(Refusal::FrameTooLarge);
    }
    if room < size + 4 {
        return Err(Refusal::NoRoom);
    }
    Ok(())
}

// Whether it is written.
pub fn fits(limit: u32, size: usize, room: usize) -> bool
    ensures { (result ≡ true) ↔ Fits limit size room }
{
    check_size(limit, size, room).is_ok()
}
