// Parts of the caller's bytes (01: text, a message or a property "comes back as a part of the caller's own bytes").
#![tactic(auto)]

ghost use Rattle.std.specs.Prelude.{◌≡◌};
ghost use Rattle.parts.specs.Parts.{nullable_part, part_at};

use fields::is_outside;
use protocol::Place;

// The bytes at a place; an empty part where the place reaches outside.
pub fn part(s: &[u8], p: Place) -> &[u8]
    ensures { result.now ≡ part_at s.now p }
{
    if is_outside(s, p) {
        return &s[..0];
    }
    let at = p.at;
    let end = at + p.len;
    &s[at..end]
}

// A null gives an empty part.
pub fn nullable_part(s: &[u8], p: Option<Place>) -> &[u8]
    ensures { result.now ≡ nullable_part s.now p }
{
    match p {
        None => &s[..0],
        Some(place) => part(s, place),
    }
}
