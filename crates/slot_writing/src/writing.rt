// Fields written from their slots.
ghost use Rattle.std.specs.Prelude.{◌≡◌};
ghost use Rattle.wire.specs.Buffer.{holds};
ghost use Rattle.protocol.specs.Layouts.{kind_of, row_by};
ghost use Rattle.rules.specs.Writing.{write_field, write_row, write_offset};
ghost use Rattle.byte_strings.specs.Stops.{told};
ghost use Rattle.fields.specs.Passes.{length_or_refusal, length_told, measured, measured_from, measured_row, put_field, put_row, put_offset};
ghost use Rattle.slots.specs.Unflat.{unflat_field, unflat_offset, unflat_row};

use crate::chunk::{measure_chunk, put_chunk};
use byte_strings::Fault;
use fields::{
    measure_active, measure_nullable, measure_number, measure_offset, measure_string, put_nullable,
    put_offset, put_string,
};
use lists::{measure_list, put_list};
use protocol::{FieldKind, LayoutField, OffsetSpecification, Refusal};
use slots::{list_of, nullable_of, offset_of, place_of, slot, slots_behind};
use wire::Width;

// The length of a layout's fields, whose slots these are, with so many bytes in front of them. The place of a refusal is the length
// in front of the field that is refused, `start` included.
pub fn measure_fields<F: LayoutField>(
    start: usize,
    src: &[u8],
    slots: &[u64],
    fields: &[F],
) -> Result<usize, Fault>
    ensures value { told result ≡ measured_row start (row_by F.stands_for fields.now) src.now (unflat_row (row_by F.stands_for fields.now) slots.now) }
    ensures length { length_or_refusal result ≡ measured_from start (write_row (row_by F.stands_for fields.now) src.now (unflat_row (row_by F.stands_for fields.now) slots.now)) }
{
    let mut size = start;
    let mut rest = slots;
    for field in fields {
        let Some(kind) = field.kind() else {
            continue; // It has no length.
        };
        match measure_field(src, rest, *kind) {
            Ok(len) => size = size.saturating_add(len),
            Err(refusal) => return Err(Fault { refusal, at: size }),
        }
        rest = slots_behind(rest, *kind);
    }
    Ok(size)
}

// These fields, put at a place. Answers the place behind them.
pub fn put_fields<F: LayoutField>(
    out: &mut [u8],
    start: usize,
    src: &[u8],
    slots: &[u64],
    fields: &[F],
) -> usize
    ensures { holds out.new result ≡ put_row (row_by F.stands_for fields.now) src.now (unflat_row (row_by F.stands_for fields.now) slots.now) (holds out.old start) }
{
    let mut at = start;
    let mut rest = slots;
    for field in fields {
        let Some(kind) = field.kind() else {
            continue; // It has no bytes.
        };
        at = put_field(out, at, src, rest, *kind);
        rest = slots_behind(rest, *kind);
    }
    at
}

// The length of the field whose slots stand first.
#[tactic(auto, using(crate::proofs::FlatFields::signed_measured))]
fn measure_field(src: &[u8], slots: &[u64], kind: FieldKind) -> Result<usize, Refusal>
    ensures { length_told result ≡ measured (write_field (kind_of kind) src.now (unflat_field (kind_of kind) slots.now)) }
{
    let first = slot(slots, 0);
    let second = slot(slots, 1);
    let third = slot(slots, 2);
    match kind {
        FieldKind::Number(width) => measure_number(width, first),
        FieldKind::Active => measure_active(first),
        // Every signed number of 64 bits fits eight bytes.
        FieldKind::Signed => Ok(8),
        FieldKind::String {
            form,
            nullable: true,
        } => measure_nullable(src, form, nullable_of(first, second)),
        FieldKind::String {
            form,
            nullable: false,
        } => measure_string(src, form, place_of(first, second)),
        FieldKind::Specification { admits_none } => {
            measure_specification(admits_none, first, second)
        }
        FieldKind::List(list) => measure_list(src, list, list_of(first, second, third)),
        FieldKind::Chunk => measure_chunk(src, slots),
    }
}

// This field, put at a place.
#[tactic(auto, using(crate::proofs::FlatFields::signed_bits))]
fn put_field(out: &mut [u8], at: usize, src: &[u8], slots: &[u64], kind: FieldKind) -> usize
    ensures { holds out.new result ≡ put_field (kind_of kind) src.now (unflat_field (kind_of kind) slots.now) (holds out.old at) }
{
    let first = slot(slots, 0);
    let second = slot(slots, 1);
    let third = slot(slots, 2);
    match kind {
        FieldKind::Number(width) => wire::put_number(out, at, width, first),
        FieldKind::Active => wire::put_number(out, at, Width::One, first),
        FieldKind::Signed => wire::put_number(out, at, Width::Eight, first),
        FieldKind::String {
            form,
            nullable: true,
        } => put_nullable(out, at, src, form, nullable_of(first, second)),
        FieldKind::String {
            form,
            nullable: false,
        } => put_string(out, at, src, form, place_of(first, second)),
        FieldKind::Specification { admits_none } => {
            put_specification(out, at, admits_none, first, second)
        }
        FieldKind::List(_) => put_list(out, at, src, list_of(first, second, third)),
        FieldKind::Chunk => put_chunk(out, at, src, slots),
    }
}

// A type above 5 gives 10.
#[tactic(auto, using(crate::proofs::FlatFields::unknown_measured))]
fn measure_specification(admits_none: bool, kind: u64, value: u64) -> Result<usize, Refusal>
    ensures { length_told result ≡ measured (write_offset admits_none (unflat_offset admits_none kind value)) }
{
    if 5 < kind {
        return Err(Refusal::ValueNotAdmitted);
    }
    measure_offset(admits_none, offset_of(kind, value))
}

// No specification has a type above 5. Another one that is not admitted stands for it.
#[tactic(auto, using(crate::proofs::FlatFields::unknown_put))]
fn put_specification(out: &mut [u8], at: usize, admits_none: bool, kind: u64, value: u64) -> usize
    ensures { holds out.new result ≡ put_offset (unflat_offset admits_none kind value) (holds out.old at) }
{
    if admits_none && 5 < kind {
        return put_offset(out, at, OffsetSpecification::Offset(0));
    }
    put_offset(out, at, offset_of(kind, value))
}
