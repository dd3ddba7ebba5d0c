// The rule of byte strings, that is text T, references R and bytes B, for all that reads or writes them.
ghost use Rattle.std.specs.Prelude.{false, [], ◌≡◌, ◌+◌, ◌-◌, ◌/◌, ◌^◌, ◌≤◌, eqb, leb, length, take, drop};
ghost use Rattle.std.proofs.Math.Option.{some};
ghost use Rattle.wire.specs.Integers.{number_or_zero, width_of};
ghost use Rattle.utf8_text.specs.Utf8.{utf8};
ghost use Rattle.protocol.specs.Fields.{place};
ghost use Rattle.protocol.specs.Kinds.{length_width};
ghost use Rattle.protocol.specs.Refusals.{bad_length, number_in, reference_too_long};
ghost use Rattle.rules.specs.Reading.{too_long, is_text};
ghost use Rattle.rules.specs.Writing.{wrote, checked, write_string};
ghost use Rattle.byte_strings.specs.Stops.{refusal_of};

use protocol::{Form, Refusal};
use wire::Width;

// Whether so many bytes from a place on are a byte string. The checks are those of `check_string`; a call of it would be slower.
pub fn is_string(s: &[u8], at: usize, len: usize, form: Form) -> bool
    ensures { result ≡ eqb (refusal_of (write_string form false s.now (some (place at len)))) 0 }
{
    check_length(form, len).is_ok() && wire::has_room(s.len(), at, len) && is_text(s, at, len, form)
}

// Why they are none. The length, then the place (6), then UTF-8 (8).
pub fn check_string(s: &[u8], at: usize, len: usize, form: Form) -> Result<(), Refusal>
    ensures { number_in result ≡ refusal_of (write_string form false s.now (some (place at len))) }
{
    check_length(form, len)?;
    if !wire::has_room(s.len(), at, len) {
        return Err(Refusal::FieldCut);
    }
    if !is_text(s, at, len, form) {
        return Err(Refusal::NotUtf8);
    }
    Ok(())
}

// A negative length (7), the reference limit (9).
fn check_length(form: Form, len: usize) -> Result<(), Refusal>
    ensures { number_in result ≡ refusal_of (checked (leb (256 ^ length_width form / 2) len) bad_length (checked (too_long form len) reference_too_long (wrote []))) }
{
    if largest(form) < len as u64 {
        return Err(Refusal::BadLength);
    }
    if too_long(form, len) {
        return Err(Refusal::ReferenceTooLong);
    }
    Ok(())
}

pub fn length_width(form: Form) -> Width
    ensures { width_of result ≡ length_width form }
{
    match form {
        Form::Text | Form::Reference => Width::Two,
        Form::Bytes => Width::Four,
    }
}

// The largest length that is not negative. Above it come the negative ones, of which -1 is the last.
fn largest(form: Form) -> u64
    ensures { result ≡ 256 ^ length_width form / 2 - 1 }
{
    match form {
        Form::Text | Form::Reference => 0x7fff,
        Form::Bytes => 0x7fff_ffff,
    }
}

fn too_long(form: Form, n: usize) -> bool
    ensures { result ≡ too_long form n }
{
    match form {
        Form::Text | Form::Bytes => false,
        Form::Reference => 256 < n,
    }
}

// Whether so many bytes from a place on are UTF-8, where the form asks for it.
fn is_text(s: &[u8], at: usize, len: usize, form: Form) -> bool
    requires { at + len ≤ length s.now }
    ensures { result ≡ is_text form (take len (drop at s.now)) }
{
    match form {
        Form::Text | Form::Reference => is_utf8_at(s, at, len),
        Form::Bytes => true,
    }
}

// `utf8_text::is_utf8` is long, and called only here, so it is inlined here. So `is_string` and `check_string` stay short enough to be
// inlined too, and their callers know the length and the room.
fn is_utf8_at(s: &[u8], at: usize, len: usize) -> bool
    requires { at + len ≤ length s.now }
    ensures { result ≡ utf8 (take len (drop at s.now)) }
{
    let end = at + len;
    utf8_text::is_utf8(&s[at..end])
}

// Whether the length at a place is that of a null.
pub fn is_null(s: &[u8], at: usize, form: Form) -> bool
    ensures { result ≡ eqb (number_or_zero (length_width form) s.now at) (256 ^ length_width form - 1) }
{
    wire::number_or_zero(s, at, length_width(form)) == minus_one(form)
}

// The bits of length -1, which means null.
pub fn minus_one(form: Form) -> u64
    ensures { result ≡ 256 ^ length_width form - 1 }
{
    match form {
        Form::Text | Form::Reference => 0xffff,
        Form::Bytes => 0xffff_ffff,
    }
}
