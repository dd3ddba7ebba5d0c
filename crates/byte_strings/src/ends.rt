// Where a byte string ends, or why it is refused. Without the reason, as an Option, the answer stays in registers: so a loop over
// these is quicker.
ghost use Rattle.std.specs.Prelude.{◌≡◌, false};
ghost use Rattle.protocol.specs.declared.kind.Form.TheVariants.{Text, Reference, Bytes};
ghost use Rattle.rules.specs.Reading.{read_string};
ghost use Rattle.byte_strings.specs.Stops.{end_of, stop, told};

use crate::fault::Fault;
use crate::string::{check_string, is_null, is_string, length_width};
use protocol::{Form, Refusal};
use wire::Width;

// T, R and B, and those that may be null: the bytes of the length (6), then what it is the length of.
pub fn string_end(s: &[u8], at: usize, form: Form, nullable: bool) -> Result<usize, Fault>
    ensures { told result ≡ stop (read_string form nullable s.now at) }
{
    let width = length_width(form);
    let n = width.bytes();
    if !wire::has_room(s.len(), at, n) {
        return Err(Fault {
            refusal: Refusal::FieldCut,
            at,
        });
    }
    let body = at + n;
    let len = wire::number_or_zero(s, at, width);
    if nullable && is_null(s, at, form) {
        return Ok(body);
    }
    match check_string(s, body, len as usize, form) {
        Ok(()) => Ok(body + len as usize),
        Err(refusal) => Err(Fault { refusal, at }),
    }
}

// B. One comparison tests the length's sign and the room, which leaves the length one load; and the place after the length is
// known before the length is, which leaves one sum to wait for it.
pub fn after_bytes(s: &[u8], at: usize) -> Option<usize>
    ensures { result ≡ end_of (read_string Bytes false s.now at) }
{
    if !wire::has_room(s.len(), at, 4) {
        return None;
    }
    let body = at + 4;
    let room = s.len() - body;
    let n = wire::number_or_zero(s, at, Width::Four);
    if (room.min(0x7fff_ffff) as u64) < n {
        return None;
    }
    Some(body + n as usize)
}

// T
pub fn after_text(s: &[u8], at: usize) -> Option<usize>
    ensures { result ≡ end_of (read_string Text false s.now at) }
{
    after_string(s, at, Form::Text)
}

// R
pub fn after_reference(s: &[u8], at: usize) -> Option<usize>
    ensures { result ≡ end_of (read_string Reference false s.now at) }
{
    after_string(s, at, Form::Reference)
}

fn after_string(s: &[u8], at: usize, form: Form) -> Option<usize>
    ensures { result ≡ end_of (read_string form false s.now at) }
{
    let width = length_width(form);
    let n = width.bytes();
    if !wire::has_room(s.len(), at, n) {
        return None;
    }
    let body = at + n;
    let len = wire::number_or_zero(s, at, width) as usize;
    if !is_string(s, body, len, form) {
        return None;
    }
    Some(body + len)
}
