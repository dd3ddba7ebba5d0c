// Writing the most frequent frames straight from their slots. Each function here answers the frame's length once it has written the
// frame, or why the frame is refused; or None where it leaves the frame to the general writer, which knows every layout and every
// refusal. Where it has not written the frame, it has touched no byte of the output.
ghost use Rattle.std.specs.Prelude.{[]};
ghost use Rattle.slots.specs.Unflat.{write_flat};
ghost use Rattle.fast_writing.specs.Answer.{WritesAs, write_row_of};

use crate::consuming::{credit, deliver, subscribe};
use crate::publishing::{declare_publisher, publish, publish_confirm};
use frame_head::{fits, put_head};
use protocol::Refusal;

// A flat frame whose places are in src, put at the start of out under a frame limit; 0 is no limit.
pub fn write(
    slots: &[u64; 24],
    src: &[u8],
    limit: u32,
    out: &mut [u8],
) -> Option<Result<u64, Refusal>>
    ensures { WritesAs (write_flat slots.now src.now limit out.old) out.old result out.new }
{
    if slots[1] != 1 {
        return None;
    }
    match slots[0] {
        0x0001 => declare_publisher(slots, src, limit, out),
        0x0002 => publish(slots, src, limit, out),
        0x0003 => publish_confirm(slots, src, limit, out),
        0x0007 => subscribe(slots, src, limit, out),
        0x0008 => deliver(slots, src, limit, out),
        0x0009 => credit(slots, limit, out),
        0x0017 => heartbeat(limit, out),
        _ => None,
    }
}

// Heartbeat has no field.
fn heartbeat(limit: u32, out: &mut [u8]) -> Option<Result<u64, Refusal>>
    ensures { WritesAs (write_row_of 0x0017 1 [] [] limit out.old) out.old result out.new }
{
    if !fits(limit, 4, out.len()) {
        return None;
    }
    put_head(out, 4, 0x0017, 1);
    Some(Ok(8))
}
