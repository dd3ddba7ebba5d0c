// The offset specification.
ghost use Rattle.std.specs.Prelude.{◌≡◌};
ghost use Rattle.wire.specs.Buffer.{holds};
ghost use Rattle.wire.specs.Integers.{digits};
ghost use Rattle.rules.specs.Reading.{read_specification};
ghost use Rattle.rules.specs.Writing.{write_offset};
ghost use Rattle.byte_strings.specs.Stops.{stop, told};
ghost use Rattle.fields.specs.Passes.{length_told, measured, behind, put_offset};

use crate::number::number_end;
use byte_strings::Fault;
use protocol::{OffsetSpecification, Refusal};
use wire::{Unsigned, Width};

// Two bytes (6), type (10), and eight more bytes for types 4 and 5 (6). Type 0 is admitted in ConsumerUpdate's response only.
pub fn specification_end(s: &[u8], at: usize, admits_none: bool) -> Result<usize, Fault>
    ensures { told result ≡ stop (read_specification admits_none s.now at) }
{
    if !wire::has_room(s.len(), at, 2) {
        return Err(Fault {
            refusal: Refusal::FieldCut,
            at,
        });
    }
    let number = at + 2;
    match wire::number_or_zero(s, at, Width::Two) {
        0 if admits_none => Ok(number),
        1..=3 => Ok(number),
        4 | 5 => number_end(s, number, Width::Eight),
        _ => Err(Fault {
            refusal: Refusal::ValueNotAdmitted,
            at,
        }),
    }
}

// The length of the type, and of the number behind types 4 and 5. Type 0 is admitted in ConsumerUpdate's response only (10).
#[tactic(auto, using(crate::proofs::Encodings::digits_size, crate::proofs::Encodings::pair_size), unfolding(rules::specs::Writing::write_offset))]
pub fn measure_offset(admits_none: bool, offset: OffsetSpecification) -> Result<usize, Refusal>
    ensures { length_told result ≡ measured (write_offset admits_none offset) }
{
    match offset {
        OffsetSpecification::None if !admits_none => Err(Refusal::ValueNotAdmitted),
        OffsetSpecification::None => Ok(2),
        OffsetSpecification::First => Ok(2),
        OffsetSpecification::Last => Ok(2),
        OffsetSpecification::Next => Ok(2),
        OffsetSpecification::Offset(_) => Ok(10),
        OffsetSpecification::Timestamp(_) => Ok(10),
    }
}

// The type, and the number behind types 4 and 5, put at a place. Answers the place behind them.
pub fn put_offset(out: &mut [u8], at: usize, offset: OffsetSpecification) -> usize
    ensures { holds out.new result ≡ put_offset offset (holds out.old at) }
{
    match offset {
        OffsetSpecification::None => put_type(out, at, 0),
        OffsetSpecification::First => put_type(out, at, 1),
        OffsetSpecification::Last => put_type(out, at, 2),
        OffsetSpecification::Next => put_type(out, at, 3),
        OffsetSpecification::Offset(x) => put_numbered(out, at, 4, x),
        OffsetSpecification::Timestamp(z) => put_numbered(out, at, 5, u64::unsigned(z)),
    }
}

fn put_type(out: &mut [u8], at: usize, kind: u64) -> usize
    ensures { holds out.new result ≡ behind (digits 2 kind) (holds out.old at) }
{
    wire::put_number(out, at, Width::Two, kind)
}

// A type and eight bytes.
fn put_numbered(out: &mut [u8], at: usize, kind: u64, value: u64) -> usize
    ensures { holds out.new result ≡ behind (digits 8 value) (behind (digits 2 kind) (holds out.old at)) }
{
    let next = put_type(out, at, kind);
    wire::put_number(out, next, Width::Eight, value)
}
