// Writing a frame from its slots.
ghost use Rattle.std.specs.Prelude.{◌≡◌, Some, IfOk};
ghost use Rattle.protocol.specs.Decision.{decide, decision_of};
ghost use Rattle.protocol.specs.Layouts.{row_from};
ghost use Rattle.protocol.specs.Table.{row_of};
ghost use Rattle.slots.specs.Unflat.{write_flat};
ghost use Rattle.frame_writing.specs.Written.{writing_of};

use frame_head::{check_size, put_head};
use protocol::{FieldKind, Refusal, layout_of};
use slot_writing::{measure_fields, put_fields};

// The frame whose slots these are, and whose places are in src, put at the start of out under a frame limit; 0 is no limit. The
// answer is its length. What the fast writer leaves, the writer that knows every layout and every refusal writes.
pub fn write(slots: &[u64; 24], src: &[u8], limit: u32, out: &mut [u8]) -> Result<u64, Refusal>
    ensures { writing_of result out.new ≡ write_flat slots.now src.now limit out.old }
{
    match fast_writing::write(slots, src, limit, out) {
        Some(answer) => answer,
        None => write_any(slots, src, limit, out),
    }
}

// The slots may hold what no typed frame does: a key (4) or a version (5) that is not listed, and numbers too wide for their
// fields (10). The fields' checks come first, then Size above the limit or above 4,294,967,295 (2), then the room in out (12);
// only then is a byte put. It is kept out of `write`, whose fast way would have to store its arguments for it.
#[inline(never)]
fn write_any(slots: &[u64; 24], src: &[u8], limit: u32, out: &mut [u8]) -> Result<u64, Refusal>
    ensures { writing_of result out.new ≡ write_flat slots.now src.now limit out.old }
{
    let key = slots[0];
    let version = slots[1];
    let content = &slots[2..];
    let fields = layout_at(key, version)?;
    let size = measure_fields(4, src, content, fields)?;
    check_size(limit, size, out.len())?;
    let next = put_head(out, size, key, version);
    put_fields(out, next, src, content, fields);
    Ok(size as u64 + 4)
}

// The layout of a key and a version. No layout has a key or a version 0, nor one above 65,535.
fn layout_at(key: u64, version: u64) -> Result<&'static [FieldKind], Refusal>
    ensures decision { decision_of result key version ≡ Some (decide key version) }
    ensures row { IfOk result (λ fields. row_from fields.now ≡ row_of key version) }
{
    let listed_key = u16::try_from(key).unwrap_or(0);
    let listed_version = u16::try_from(version).unwrap_or(0);
    layout_of(listed_key, listed_version)
}
