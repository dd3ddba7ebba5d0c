// The slots of a field: how many there are, what stands in them, and how they are put.
ghost use Rattle.std.specs.Prelude.{true, [], ◌∷◌, ◌++◌, ◌≡◌, ◌≤◌, get_or, drop};
ghost use Rattle.wire.specs.Signed.{signed};
ghost use Rattle.protocol.specs.Frames.{nullable_field};
ghost use Rattle.protocol.specs.Layouts.{kind_of, kind_said};
ghost use Rattle.slots.specs.Flat.{bits, flat_header, flat_octets, flat_offset, flat_place, not_null, overlaid, padded};
ghost use Rattle.slots.specs.Inverse.{SignedHeader, SignedOffset};
ghost use Rattle.slots.specs.Unflat as kinds;

use protocol::{ChunkHeader, FieldKind, OffsetSpecification, Place};
use wire::Unsigned;

// The length of a null, whose place is 0.
pub const NULL_LENGTH: usize = 0xffff_ffff_ffff_ffff;

// How many slots a field of a kind takes; none where there is no kind.
pub fn slots_of(kind: Option<FieldKind>) -> usize
    ensures value { result ≡ kinds.slots_for (kind_said kind) }
    ensures most { result ≤ 14 }
{
    match kind {
        None => 0,
        Some(FieldKind::Number(_) | FieldKind::Active | FieldKind::Signed) => 1,
        Some(FieldKind::String { .. } | FieldKind::Specification { .. }) => 2,
        Some(FieldKind::List(_)) => 3,
        Some(FieldKind::Chunk) => 14,
    }
}

// The slots behind those of a field, which stand first.
pub fn slots_behind(slots: &[u64], kind: FieldKind) -> &[u64]
    ensures { result.now ≡ drop (kinds.slots_of (kind_of kind)) slots.now }
{
    &slots[slots_of(Some(kind)).min(slots.len())..]
}

// The slot at an index. Behind the last slot there is a 0.
pub fn slot(slots: &[u64], i: usize) -> u64
    ensures { result ≡ get_or slots.now i 0 }
{
    slots.get(i).copied().unwrap_or(0)
}

// Puts values into the slots from a place on, as far as there are slots.
#[tactic(auto, using(crate::proofs::Overlaid::put_mid_is, crate::proofs::Overlaid::none_fits))]
pub fn put_slots(slots: &mut [u64], at: usize, values: &[u64])
    ensures { slots.new ≡ overlaid slots.old at values.now }
{
    let len = slots.len();
    if len <= at {
        return;
    }
    let count = values.len().min(len - at);
    slots[at..at + count].copy_from_slice(&values[..count]);
}

// A null as a place: 0, with a length that no place has.
pub fn place_or_null(o: Option<Place>) -> Place
    ensures { flat_place result ≡ flat_octets true (nullable_field o).octets }
{
    match o {
        None => Place {
            at: 0,
            len: NULL_LENGTH,
        },
        Some(place) => not_null(place),
    }
}

fn not_null(place: Place) -> Place
    ensures { flat_place result ≡ place.at ∷ not_null place.len ∷ [] }
{
    if place.len == NULL_LENGTH {
        return Place {
            at: place.at,
            len: NULL_LENGTH - 1,
        };
    }
    place
}

// The type, and the value: 0 where it has none.
pub fn flat_offset(s: OffsetSpecification) -> [u64; 2]
    ensures slots { result ≡ flat_offset s }
    ensures signed_offset { SignedOffset s }
{
    match s {
        OffsetSpecification::None => [0, 0],
        OffsetSpecification::First => [1, 0],
        OffsetSpecification::Last => [2, 0],
        OffsetSpecification::Next => [3, 0],
        OffsetSpecification::Offset(offset) => [4, offset],
        OffsetSpecification::Timestamp(timestamp) => [5, u64::unsigned(timestamp)],
    }
}

// The header's twelve numbers, then the place of the data.
pub fn flat_chunk(header: ChunkHeader, data: Place) -> [u64; 14]
    ensures value { result ≡ flat_header header ++ flat_place «data» }
    ensures signed_header { SignedHeader header }
{
    [
        u64::unsigned(i64::from(header.magic)),
        u64::unsigned(i64::from(header.chunk_type)),
        header.entries as u64,
        header.records as u64,
        u64::unsigned(header.timestamp),
        header.epoch,
        header.first_offset,
        u64::unsigned(i64::from(header.checksum)),
        header.data_length as u64,
        header.trailer_length as u64,
        header.bloom_size as u64,
        header.reserved as u64,
        data.at as u64,
        data.len as u64,
    ]
}

// A signed number of one byte, and of four, as its 64 bits.
pub fn widened8(x: u8) -> u64
    ensures { result ≡ bits (signed 1 x) }
{
    u64::unsigned(i64::from(x.signed()))
}

pub fn widened32(x: u32) -> u64
    ensures { result ≡ bits (signed 4 x) }
{
    u64::unsigned(i64::from(x.signed()))
}

// The slots of a message: its place.
#[tactic(auto, unfolding(crate::specs::Flat::padded))]
pub fn place_slots(p: Place) -> [u64; 8]
    ensures { result ≡ padded 8 (flat_place p) }
{
    [p.at as u64, p.len as u64, 0, 0, 0, 0, 0, 0]
}
