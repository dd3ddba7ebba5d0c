// Lists measured and put: a count, and then the encoded elements from their place.
ghost use Rattle.std.specs.Prelude.{◌≡◌};
ghost use Rattle.wire.specs.Buffer.{holds};
ghost use Rattle.protocol.specs.Frames.{list_field};
ghost use Rattle.protocol.specs.Kinds.{list_of};
ghost use Rattle.rules.specs.Writing.{write_field};
ghost use Rattle.fields.specs.Passes.{length_told, measured, put_list};

use crate::list::check_list;
use protocol::{Elements, ListKind, Refusal};
use wire::Width;

// The length of a list.
pub fn measure_list(src: &[u8], kind: ListKind, list: Elements) -> Result<usize, Refusal>
    ensures { length_told result ≡ measured (write_field (list_of kind) src.now (list_field list)) }
{
    check_list(src, kind, list)?;
    Ok(4 + list.place.len)
}

// A list, put at a place. Answers the place behind it.
#[inline(always)]
pub fn put_list(out: &mut [u8], at: usize, src: &[u8], list: Elements) -> usize
    ensures { holds out.new result ≡ put_list src.now list.count list.place (holds out.old at) }
{
    let next = wire::put_number(out, at, Width::Four, list.count as u64);
    wire::put_bytes(out, next, src, list.place.at, list.place.len)
}
