// Byte strings measured and put: text T, references R and bytes B, and those that may be null.
ghost use Rattle.std.specs.Prelude.{◌≡◌, true, false};
ghost use Rattle.wire.specs.Buffer.{holds};
ghost use Rattle.protocol.specs.Frames.{nullable_field, place_field};
ghost use Rattle.protocol.specs.Kinds.{length_width};
ghost use Rattle.rules.specs.Writing.{write_string};
ghost use Rattle.fields.specs.Passes.{length_told, measured, put_string};

use byte_strings::{check_string, length_width, minus_one};
use protocol::{Form, Place, Refusal};

// The length of T?, R? and B?. Null is length -1, and has no place to look at.
#[tactic(auto, using(crate::proofs::Encodings::digits_size), unfolding(rules::specs::Writing::write_string))]
pub fn measure_nullable(src: &[u8], form: Form, value: Option<Place>) -> Result<usize, Refusal>
    ensures { length_told result ≡ measured (write_string form true src.now (nullable_field value).octets) }
{
    match value {
        None => Ok(length_width(form).bytes()),
        Some(place) => measure_string(src, form, place),
    }
}

// The length of T, R and B.
pub fn measure_string(src: &[u8], form: Form, place: Place) -> Result<usize, Refusal>
    ensures { length_told result ≡ measured (write_string form false src.now (place_field place).octets) }
{
    check_string(src, place.at, place.len, form)?;
    Ok(length_width(form).bytes() + place.len)
}

// T?, R? and B?, put at a place. Answers the place behind it.
pub fn put_nullable(
    out: &mut [u8],
    at: usize,
    src: &[u8],
    form: Form,
    value: Option<Place>,
) -> usize
    ensures { holds out.new result ≡ put_string (length_width form) src.now (nullable_field value).octets (holds out.old at) }
{
    match value {
        None => wire::put_number(out, at, length_width(form), minus_one(form)),
        Some(place) => put_string(out, at, src, form, place),
    }
}

// T, R and B, put at a place. It is inlined where the form is known, and the length's width with it.
#[inline(always)]
pub fn put_string(out: &mut [u8], at: usize, src: &[u8], form: Form, place: Place) -> usize
    ensures { holds out.new result ≡ put_string (length_width form) src.now (place_field place).octets (holds out.old at) }
{
    let next = wire::put_number(out, at, length_width(form), place.len as u64);
    wire::put_bytes(out, next, src, place.at, place.len)
}
