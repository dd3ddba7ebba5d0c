// A chunk, to the end of the part.
ghost use Rattle.std.specs.Prelude.{◌≡◌, ◌+◌, ◌≤◌, length};
ghost use Rattle.rules.specs.Reading.{header_at, read_chunk, read_headed};
ghost use Rattle.byte_strings.specs.Stops.{stop, told};
ghost use Rattle.chunks.specs.Entries.{entry_count};

use crate::chunk_type::{has_entries, is_chunk_type};
use crate::entry::entries_of;
use byte_strings::Fault;
use protocol::Refusal;
use wire::Width;

// Where a chunk that begins at a place ends, which is the end of s: the whole header (6), then what it says.
#[tactic(auto, using(crate::proofs::Chunks::header_cut, crate::proofs::Chunks::header_stops))]
pub fn chunk_end(s: &[u8], at: usize) -> Result<usize, Fault>
    ensures { told result ≡ stop (read_chunk s.now at) }
{
    if !wire::has_room(s.len(), at, 48) {
        return Err(Fault {
            refusal: Refusal::FieldCut,
            at,
        });
    }
    data_end(s, at)
}

// After the header: type (10), data present (6), data shorter than the rest (11), and for type 0 the entries.
#[tactic(auto, using(crate::proofs::Chunks::type_refused, crate::proofs::Chunks::data_cut, crate::proofs::Chunks::data_longer, crate::proofs::Chunks::data_entries, crate::proofs::Chunks::data_closed))]
fn data_end(s: &[u8], at: usize) -> Result<usize, Fault>
    requires { at + 48 ≤ length s.now }
    ensures { told result ≡ stop (read_headed (header_at s.now at) s.now at) }
{
    let kind = wire::number_or_zero(s, at + 1, Width::One);
    let len = wire::number_or_zero(s, at + 36, Width::Four) as usize;
    let start = at + 48;
    let rest = s.len() - start;
    if !is_chunk_type(kind) {
        return Err(Fault {
            refusal: Refusal::ValueNotAdmitted,
            at: at + 1,
        });
    }
    if rest < len {
        return Err(Fault {
            refusal: Refusal::FieldCut,
            at: start,
        });
    }
    if len < rest {
        return Err(Fault {
            refusal: Refusal::BytesLeft,
            at: start + len,
        });
    }
    if has_entries(kind) {
        let entries = wire::number_or_zero(s, at + 2, Width::Two);
        let records = wire::number_or_zero(s, at + 4, Width::Four);
        return entries_of(s, start, entries, records, at + 4);
    }
    Ok(s.len())
}

// How many entries a chunk has; one of type 1 or 2 stays unopened, and has none. What is not there counts as 0.
#[tactic(auto, using(crate::proofs::Entries::closed, crate::proofs::Entries::opened))]
pub fn entry_count(chunk: &[u8]) -> usize
    ensures { result ≡ entry_count chunk.now }
{
    let kind = wire::number_or_zero(chunk, 1, Width::One);
    if !has_entries(kind) {
        return 0;
    }
    wire::number_or_zero(chunk, 2, Width::Two) as usize
}
