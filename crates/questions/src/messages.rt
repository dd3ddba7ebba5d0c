// The message of a chunk at an index (01 "Chunks").
ghost use Rattle.std.specs.Prelude.{◌≡◌, ℕ, suc, ◌+◌, ◌<◌, length};
ghost use Rattle.wire.specs.Signed.{signed};
ghost use Rattle.protocol.specs.Fields.{further};
ghost use Rattle.protocol.specs.Refusals.{number_in};
ghost use Rattle.questions.specs.Questions.{asked, message_at, message_of, message_part, number_of, read_nth};
ghost use Rattle.rules.specs.Outcome.{mapped};
ghost use Rattle.rules.specs.Reading.{read_entry};
ghost use Rattle.questions.specs.Answer.{place_answer};

use chunks::{entries_end, entry_end, has_entries};
use fields::is_outside;
use parts::part;
use protocol::{Chunk, Place, Refusal};
use wire::Unsigned;

// From a chunk's type, in the bits of any width, and its entry count: the data's place outside the source (6), a type other than 0
// (10), the index at or above the entry count (10), then the entries up to the one asked for.
pub fn message_place(
    s: &[u8],
    kind: u64,
    entries: u16,
    data: Place,
    index: usize,
) -> Result<Place, Refusal>
    ensures { (n : ℕ) → place_answer result ≡ message_of s.now (signed (suc n) kind) entries «data» index }
{
    if is_outside(s, data) {
        return Err(Refusal::FieldCut);
    }
    if !has_entries(kind) {
        return Err(Refusal::ValueNotAdmitted);
    }
    if entries as usize <= index {
        return Err(Refusal::ValueNotAdmitted);
    }
    let at = data.at;
    let end = at + data.len;
    nth_message(&s[at..end], at, index)
}

// The message itself; an empty part where it is refused.
pub fn message(s: &[u8], chunk: Chunk, index: usize) -> &[u8]
    ensures { result.now ≡ message_part s.now (message_at s.now chunk.header chunk.«data» index) }
{
    match message_in(s, chunk, index) {
        Ok(place) => part(s, place),
        Err(_) => &s[..0],
    }
}

// Why there is none.
pub fn check_message(s: &[u8], chunk: Chunk, index: usize) -> Result<(), Refusal>
    ensures { number_in result ≡ number_of (message_at s.now chunk.header chunk.«data» index) }
{
    message_in(s, chunk, index)?;
    Ok(())
}

fn message_in(s: &[u8], chunk: Chunk, index: usize) -> Result<Place, Refusal>
    ensures { place_answer result ≡ message_at s.now chunk.header chunk.«data» index }
{
    let header = chunk.header;
    let data = chunk.data;
    let kind = u8::unsigned(header.chunk_type) as u64;
    message_place(s, kind, header.entries, data, index)
}

// The entries before it are passed over, checked as when read. `base` bytes of the source stand before the data.
fn nth_message(data: &[u8], base: usize, index: usize) -> Result<Place, Refusal>
    requires { base + length «data».now < 0x8000_0000_0000_0000 }
    ensures { place_answer result ≡ asked (mapped (further base) (read_nth read_entry index «data».now)) }
{
    let at = entries_end(data, 0, index)?;
    let end = entry_end(data, at)?;
    let first = at + 4;
    Ok(Place {
        at: base + first,
        len: end - first,
    })
}
