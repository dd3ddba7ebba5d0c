// The typed parts that slots stand for.
ghost use Rattle.std.specs.Prelude.{true, false, ◌≡◌};
ghost use Rattle.wire.specs.Signed.{signed};
ghost use Rattle.protocol.specs.Fields as F;
ghost use Rattle.protocol.specs.Frames.{list_field, nullable_field};
ghost use Rattle.protocol.specs.declared.offset.OffsetSpecification.TheVariants.{Timestamp};
ghost use Rattle.slots.specs.Unflat.{unflat_octets, unflat_offset};

use crate::to_slots::NULL_LENGTH;
use protocol::{Elements, OffsetSpecification, Place};
use wire::Unsigned;

pub fn place_of(at: u64, len: u64) -> Place
    ensures { result ≡ F.place at len }
{
    Place {
        at: at as usize,
        len: len as usize,
    }
}

pub fn nullable_of(at: u64, len: u64) -> Option<Place>
    ensures { nullable_field result ≡ F.string (unflat_octets true at len) }
{
    if len as usize == NULL_LENGTH {
        return None;
    }
    Some(place_of(at, len))
}

pub fn list_of(count: u64, at: u64, len: u64) -> Elements
    ensures { list_field result ≡ F.elements count (F.place at len) }
{
    Elements {
        count: count as usize,
        place: place_of(at, len),
    }
}

// No specification has a type above 5. For a field that does not admit type 0, one of type 0 stands for it.
pub fn offset_of(kind: u64, value: u64) -> OffsetSpecification
    ensures { result ≡ unflat_offset false kind value }
{
    match kind {
        0 => OffsetSpecification::None,
        1 => OffsetSpecification::First,
        2 => OffsetSpecification::Last,
        3 => OffsetSpecification::Next,
        4 => OffsetSpecification::Offset(value),
        5 => timestamp_of(value),
        _ => OffsetSpecification::None,
    }
}

fn timestamp_of(value: u64) -> OffsetSpecification
    ensures { result ≡ Timestamp (signed 8 value) }
{
    let z = value.signed();
    OffsetSpecification::Timestamp(z)
}
