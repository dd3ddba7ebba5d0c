// Writing a chunk from its slots.
ghost use Rattle.std.specs.Prelude.{◌≡◌};
ghost use Rattle.wire.specs.Buffer.{holds, put};
ghost use Rattle.wire.specs.Integers.{digits, width_of};
ghost use Rattle.wire.specs.Signed.{signed, unsigned};
ghost use Rattle.protocol.specs.Kinds as K;
ghost use Rattle.protocol.specs.Refusals.{number_in};
ghost use Rattle.rules.specs.Writing.{fits_header, write_field};
ghost use Rattle.byte_strings.specs.Stops.{refusal_of};
ghost use Rattle.fields.specs.Passes.{length_told, measured, put_field, put_header};
ghost use Rattle.slots.specs.Unflat.{unflat_field, unflat_header};
ghost use Rattle.slot_writing.specs.Narrow.{narrow};

use chunks::{entries_of, has_entries, is_chunk_type};
use fields::{is_number, is_outside, largest};
use protocol::{Place, Refusal};
use slots::slot;
use wire::{Unsigned, Width};

// Why the chunk whose slots these are is not written: type, and a header number too wide (10); the data's place (6); data
// shorter than the data length (6), longer (11); and for type 0 the entries.
pub fn check_chunk(src: &[u8], slots: &[u64]) -> Result<(), Refusal>
    ensures { number_in result ≡ refusal_of (write_field K.chunk src.now (unflat_field K.chunk slots.now)) }
{
    let kind = slot(slots, 1);
    let data_length = slot(slots, 8) as usize;
    let from = slot(slots, 12) as usize;
    let len = slot(slots, 13) as usize;
    if !is_chunk_type(kind) || !header_fits(slots) {
        return Err(Refusal::ValueNotAdmitted);
    }
    if is_outside(src, Place { at: from, len }) || len < data_length {
        return Err(Refusal::FieldCut);
    }
    if data_length < len {
        return Err(Refusal::BytesLeft);
    }
    if has_entries(kind) {
        let end = from + len;
        let entries = slot(slots, 2);
        let records = slot(slots, 3);
        if let Err(fault) = entries_of(&src[from..end], 0, entries, records, 0) {
            return Err(fault.refusal);
        }
    }
    Ok(())
}

// The length of the chunk whose slots these are.
pub fn measure_chunk(src: &[u8], slots: &[u64]) -> Result<usize, Refusal>
    ensures { length_told result ≡ measured (write_field K.chunk src.now (unflat_field K.chunk slots.now)) }
{
    check_chunk(src, slots)?;
    let len = slot(slots, 13) as usize;
    Ok(48 + len)
}

// The header, and the data behind it.
pub fn put_chunk(out: &mut [u8], at: usize, src: &[u8], slots: &[u64]) -> usize
    ensures { holds out.new result ≡ put_field K.chunk src.now (unflat_field K.chunk slots.now) (holds out.old at) }
{
    let from = slot(slots, 12);
    let len = slot(slots, 13);
    let next = put_header(out, at, slots);
    wire::put_bytes(out, next, src, from as usize, len as usize)
}

// The header's numbers fit their fields. Those of eight bytes do by their type.
fn header_fits(slots: &[u64]) -> bool
    ensures { result ≡ fits_header (unflat_header slots.now) }
{
    let magic = slot(slots, 0).signed();
    let kind = slot(slots, 1).signed();
    let entries = slot(slots, 2);
    let records = slot(slots, 3);
    let checksum = slot(slots, 7).signed();
    let data_length = slot(slots, 8);
    let trailer_length = slot(slots, 9);
    let bloom_size = slot(slots, 10);
    let reserved = slot(slots, 11);
    i8::try_from(magic).is_ok()
        & i8::try_from(kind).is_ok()
        & is_number(Width::Two, entries)
        & is_number(Width::Four, records)
        & i32::try_from(checksum).is_ok()
        & is_number(Width::Four, data_length)
        & is_number(Width::Four, trailer_length)
        & is_number(Width::One, bloom_size)
        & is_number(Width::Three, reserved)
}

// A signed number's 64 bits as those of a field whose bits, all 1, are `ones`.
#[tactic(auto, unfolding(crate::specs::Narrow::narrow))]
fn narrowed(x: u64, ones: u64) -> u64
    ensures { result ≡ narrow ones x }
{
    if x < 0x8000_0000_0000_0000 {
        x
    } else {
        ones.saturating_sub(u64::MAX - x)
    }
}

// The twelve numbers, one behind another.
fn put_header(out: &mut [u8], at: usize, slots: &[u64]) -> usize
    ensures { holds out.new result ≡ put_header (unflat_header slots.now) (holds out.old at) }
{
    let next = put_signed(out, at, Width::One, slot(slots, 0));
    let next = put_signed(out, next, Width::One, slot(slots, 1));
    let next = wire::put_number(out, next, Width::Two, slot(slots, 2));
    let next = wire::put_number(out, next, Width::Four, slot(slots, 3));
    let next = put_signed(out, next, Width::Eight, slot(slots, 4));
    let next = wire::put_number(out, next, Width::Eight, slot(slots, 5));
    let next = wire::put_number(out, next, Width::Eight, slot(slots, 6));
    let next = put_signed(out, next, Width::Four, slot(slots, 7));
    let next = wire::put_number(out, next, Width::Four, slot(slots, 8));
    let next = wire::put_number(out, next, Width::Four, slot(slots, 9));
    let next = wire::put_number(out, next, Width::One, slot(slots, 10));
    wire::put_number(out, next, Width::Three, slot(slots, 11))
}

// A signed number from its 64 bits.
#[tactic(auto, using(crate::proofs::Narrowing::narrow_bits))]
fn put_signed(out: &mut [u8], at: usize, width: Width, x: u64) -> usize
    ensures { holds out.new result ≡ put out.old at (digits (width_of width) (unsigned (width_of width) (signed 8 x))) }
{
    wire::put_number(out, at, width, narrowed(x, largest(width)))
}
