// Slots that fields are read into, one after another: each kind of field by a reader of its own.
ghost use Rattle.std.specs.Prelude.{◌≡◌, ◌++◌, ℕ, ◌+◌, ◌<◌, ◌≤◌, length};
ghost use Rattle.wire.specs.Integers.{width_of};
ghost use Rattle.protocol.specs.Fields.{place};
ghost use Rattle.protocol.specs.Kinds.{list_of, unsigned, specification};
ghost use Rattle.protocol.specs.Kinds as K;
ghost use Rattle.protocol.specs.Layouts.{kind_of, row_by};
ghost use Rattle.rules.specs.Reading.{header_at, read_field, read_row};
ghost use Rattle.byte_strings.specs.Stops.{stop, told};
ghost use Rattle.slots.specs.Flat.{flat_header, flat_place, overlaid};
ghost use Rattle.slot_reading.specs.Reading.{field_slots, Filled};

use byte_strings::{Fault, is_null, length_width, string_end};
use chunks::chunk_end;
use fields::{largest, specification_end, unsigned_end};
use lists::list_end;
use number_lists::count_at;
use protocol::{FieldKind, Form, LayoutField, ListKind};
use slots::{NULL_LENGTH, put_slots, slots_of, widened8, widened32};
use wire::Width;

#[derive(Drop)]
pub struct Filling<const N: usize> {
    pub slots: [u64; N],
    // Where the next field's slots begin.
    pub next: usize,
    // So many bytes of the source stand before those that are read, and the places count from the first of them.
    pub base: usize,
}

impl<const N: usize> Filling<N> {
    // Puts a field's values, as far as there are slots.
    fn put(&mut self, values: &[u64])
        ensures slots_after { self.new.slots ≡ overlaid self.old.slots self.old.next values.now }
        ensures kept { (self.new.next ≡ self.old.next) × (self.new.base ≡ self.old.base) }
    {
        put_slots(&mut self.slots[..], self.next, values);
    }

    // The fields of a layout or of an element, in wire order, from a place on.
    pub(crate) fn read<F: LayoutField>(
        &mut self,
        s: &[u8],
        start: usize,
        fields: &[F],
    ) -> Result<usize, Fault>
        requires { self.old.base + length s.now < 0x1_0000_0000_0000_0000 }
        ensures value { told result ≡ stop (read_row (row_by F.stands_for fields.now) s.now start) }
        ensures filled { Filled self.old.base (row_by F.stands_for fields.now) (read_row (row_by F.stands_for fields.now) s.now start) self.old.slots self.old.next self.new.slots }
    {
        let mut at = start;
        for field in fields {
            let Some(kind) = field.kind() else {
                continue;
            };
            at = self.read_field(s, at, *kind)?;
            // Behind the last slot one place is as another.
            self.next = self.next.saturating_add(slots_of(Some(*kind)));
        }
        Ok(at)
    }

    // The field at a place, by its kind. Only a field that is read changes the slots.
    fn read_field(&mut self, s: &[u8], at: usize, kind: FieldKind) -> Result<usize, Fault>
        requires { self.old.base + length s.now < 0x1_0000_0000_0000_0000 }
        ensures value { told result ≡ stop (read_field (kind_of kind) s.now at) }
        ensures slots_after { self.new.slots ≡ field_slots self.old.base (kind_of kind) (read_field (kind_of kind) s.now at) self.old.slots self.old.next }
        ensures kept { (self.new.next ≡ self.old.next) × (self.new.base ≡ self.old.base) }
    {
        match kind {
            FieldKind::Number(width) => self.read_unsigned(s, at, width, largest(width)),
            FieldKind::Active => self.read_unsigned(s, at, Width::One, 1),
            // A signed number of eight bytes is its 64 bits.
            FieldKind::Signed => self.read_unsigned(s, at, Width::Eight, u64::MAX),
            FieldKind::String { form, nullable } => self.read_string(s, at, form, nullable),
            FieldKind::Specification { admits_none } => {
                self.read_specification(s, at, admits_none)
            }
            FieldKind::List(list) => self.read_list(s, at, list),
            FieldKind::Chunk => self.read_chunk(s, at),
        }
    }

    // A number (6) up to the largest that is admitted (10).
    #[tactic(auto, unfolding(rules::specs::Reading::read_field))]
    fn read_unsigned(
        &mut self,
        s: &[u8],
        at: usize,
        width: Width,
        most: u64,
    ) -> Result<usize, Fault>
        ensures value { told result ≡ stop (read_field (unsigned (width_of width) most) s.now at) }
        ensures slots_after { self.new.slots ≡ field_slots self.old.base (unsigned (width_of width) most) (read_field (unsigned (width_of width) most) s.now at) self.old.slots self.old.next }
        ensures kept { (self.new.next ≡ self.old.next) × (self.new.base ≡ self.old.base) }
    {
        let end = unsigned_end(s, at, width, most)?;
        self.put(&[wire::number_or_zero(s, at, width)]);
        Ok(end)
    }

    // T, R and B, and those that may be null.
    #[tactic(auto, unfolding(rules::specs::Reading::read_field))]
    fn read_string(
        &mut self,
        s: &[u8],
        at: usize,
        form: Form,
        nullable: bool,
    ) -> Result<usize, Fault>
        requires { self.old.base + length s.now < 0x1_0000_0000_0000_0000 }
        ensures value { told result ≡ stop (read_field (K.string form nullable) s.now at) }
        ensures slots_after { self.new.slots ≡ field_slots self.old.base (K.string form nullable) (read_field (K.string form nullable) s.now at) self.old.slots self.old.next }
        ensures kept { (self.new.next ≡ self.old.next) × (self.new.base ≡ self.old.base) }
    {
        let end = string_end(s, at, form, nullable)?;
        if is_null(s, at, form) {
            self.put(&[0, NULL_LENGTH as u64]);
            return Ok(end);
        }
        let first = at + length_width(form).bytes();
        self.put(&[(self.base + first) as u64, (end - first) as u64]);
        Ok(end)
    }

    // The type, and the eight bytes after it, if it has them.
    #[tactic(auto, unfolding(rules::specs::Reading::read_field))]
    fn read_specification(&mut self, s: &[u8], at: usize, admits_none: bool) -> Result<usize, Fault>
        ensures value { told result ≡ stop (read_field (specification admits_none) s.now at) }
        ensures slots_after { self.new.slots ≡ field_slots self.old.base (specification admits_none) (read_field (specification admits_none) s.now at) self.old.slots self.old.next }
        ensures kept { (self.new.next ≡ self.old.next) × (self.new.base ≡ self.old.base) }
    {
        let end = specification_end(s, at, admits_none)?;
        let kind = wire::number_or_zero(s, at, Width::Two);
        let first = at + 2;
        let value = if end == first {
            0
        } else {
            wire::number_or_zero(s, first, Width::Eight)
        };
        self.put(&[kind, value]);
        Ok(end)
    }

    fn read_list(&mut self, s: &[u8], at: usize, kind: ListKind) -> Result<usize, Fault>
        requires { self.old.base + length s.now < 0x1_0000_0000_0000_0000 }
        ensures value { told result ≡ stop (read_field (list_of kind) s.now at) }
        ensures slots_after { self.new.slots ≡ field_slots self.old.base (list_of kind) (read_field (list_of kind) s.now at) self.old.slots self.old.next }
        ensures kept { (self.new.next ≡ self.old.next) × (self.new.base ≡ self.old.base) }
    {
        let end = list_end(s, at, kind)?;
        let first = at + 4;
        self.put(&[
            count_at(s, at) as u64,
            (self.base + first) as u64,
            (end - first) as u64,
        ]);
        Ok(end)
    }

    #[tactic(auto, unfolding(rules::specs::Reading::read_field))]
    fn read_chunk(&mut self, s: &[u8], at: usize) -> Result<usize, Fault>
        requires { self.old.base + length s.now < 0x1_0000_0000_0000_0000 }
        ensures value { told result ≡ stop (read_field K.chunk s.now at) }
        ensures slots_after { self.new.slots ≡ field_slots self.old.base K.chunk (read_field K.chunk s.now at) self.old.slots self.old.next }
        ensures kept { (self.new.next ≡ self.old.next) × (self.new.base ≡ self.old.base) }
    {
        let end = chunk_end(s, at)?;
        let values = chunk_slots(s, at, self.base);
        self.put(&values);
        Ok(end)
    }
}

// The header's twelve numbers, then the place of the data.
fn chunk_slots(s: &[u8], at: usize, base: usize) -> [u64; 14]
    requires { (at + 48 ≤ length s.now) × (base + length s.now < 0x1_0000_0000_0000_0000) }
    ensures { result ≡ flat_header (header_at s.now at) ++ flat_place (place (base + (at + 48)) (header_at s.now at).data_length) }
{
    [
        widened8(wire::number_or_zero(s, at, Width::One) as u8),
        widened8(wire::number_or_zero(s, at + 1, Width::One) as u8),
        wire::number_or_zero(s, at + 2, Width::Two),
        wire::number_or_zero(s, at + 4, Width::Four),
        wire::number_or_zero(s, at + 8, Width::Eight),
        wire::number_or_zero(s, at + 16, Width::Eight),
        wire::number_or_zero(s, at + 24, Width::Eight),
        widened32(wire::number_or_zero(s, at + 32, Width::Four) as u32),
        wire::number_or_zero(s, at + 36, Width::Four),
        wire::number_or_zero(s, at + 40, Width::Four),
        wire::number_or_zero(s, at + 44, Width::One),
        wire::number_or_zero(s, at + 45, Width::Three),
        (base + at + 48) as u64,
        wire::number_or_zero(s, at + 36, Width::Four),
    ]
}
