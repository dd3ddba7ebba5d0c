// The elements of a list, field by field.
ghost use Rattle.std.specs.Prelude.{◌≡◌, true, All};
ghost use Rattle.protocol.specs.Kinds.{element_row};
ghost use Rattle.protocol.specs.Layouts.{is_in_elements, kind_of, row_from};
ghost use Rattle.rules.specs.Outcome.{repeated};
ghost use Rattle.rules.specs.Reading.{read_field, read_row};
ghost use Rattle.byte_strings.specs.Stops.{stop, told};

use byte_strings::{Fault, string_end};
use fields::number_end;
use number_lists::numbers_end;
use protocol::{Element, FieldKind, element_fields};
use wire::Width;

// So many elements of any kind from a place on. One that is refused is gone through once, since its walk knows why. It is kept out of
// `elements_end`, whose quick loops are slower with it.
#[inline(never)]
pub fn walked_end(s: &[u8], start: usize, kind: Element, count: usize) -> Result<usize, Fault>
    ensures { told result ≡ stop (repeated (read_row (element_row kind)) count s.now start) }
{
    let fields = element_fields(kind);
    let mut at = start;
    for _ in 0..count {
        at = row_end(s, at, fields)?;
    }
    Ok(at)
}

// Where the element at a place ends, or why it is refused.
pub fn element_end(s: &[u8], start: usize, kind: Element) -> Result<usize, Fault>
    ensures { told result ≡ stop (read_row (element_row kind) s.now start) }
{
    row_end(s, start, element_fields(kind))
}

// The answer is larger than two registers, so a call for each element would hand it over in memory.
#[inline(always)]
fn row_end(s: &[u8], start: usize, fields: &[FieldKind]) -> Result<usize, Fault>
    requires { All (λ k. is_in_elements k ≡ true) fields.now }
    ensures { told result ≡ stop (read_row (row_from fields.now) s.now start) }
{
    let mut at = start;
    for field in fields {
        at = field_end(s, at, *field)?;
    }
    Ok(at)
}

// A field that an element may have. The list among them is one of numbers, so no list stands in another any deeper.
fn field_end(s: &[u8], at: usize, kind: FieldKind) -> Result<usize, Fault>
    requires { is_in_elements kind ≡ true }
    ensures { told result ≡ stop (read_field (kind_of kind) s.now at) }
{
    match kind {
        FieldKind::Number(width) => number_end(s, at, width),
        FieldKind::Signed => number_end(s, at, Width::Eight),
        FieldKind::String { form, nullable } => string_end(s, at, form, nullable),
        FieldKind::List(_) => numbers_end(s, at, Width::Two),
        FieldKind::Active | FieldKind::Specification { .. } | FieldKind::Chunk => unreachable!(),
    }
}
