// The entries of a chunk of type 0.
ghost use Rattle.std.specs.Prelude.{◌≡◌};
ghost use Rattle.rules.specs.Outcome.{repeated};
ghost use Rattle.rules.specs.Reading.{read_entry};
ghost use Rattle.byte_strings.specs.Stops.{only_end, stop, told};
ghost use Rattle.chunks.specs.Entries.{entries_from};

use byte_strings::{Fault, Item, after_bytes, items_end};
use protocol::Refusal;
use wire::Width;

// After an entry: four bytes (6), the top bit (10), the message (6).
#[tactic(auto, using(crate::proofs::Entries::entry_cut, crate::proofs::Entries::top_bit, crate::proofs::Entries::message_cut, crate::proofs::Entries::message_there))]
pub fn entry_end(s: &[u8], at: usize) -> Result<usize, Fault>
    ensures { told result ≡ stop (read_entry s.now at) }
{
    if !wire::has_room(s.len(), at, 4) {
        return Err(Fault {
            refusal: Refusal::FieldCut,
            at,
        });
    }
    let message = at + 4;
    let size = wire::number_or_zero(s, at, Width::Four);
    if 0x7fff_ffff < size {
        return Err(Fault {
            refusal: Refusal::ValueNotAdmitted,
            at,
        });
    }
    if ((s.len() - message) as u64) < size {
        return Err(Fault {
            refusal: Refusal::FieldCut,
            at,
        });
    }
    Ok(message + size as usize)
}

// Records equals entries (10, at the place of records), that many entries from a place on, and nothing else (11).
#[tactic(auto, using(crate::proofs::Entries::records_differ, crate::proofs::Entries::entries_refused, crate::proofs::Entries::entries_left, crate::proofs::Entries::entries_used))]
pub fn entries_of(
    s: &[u8],
    start: usize,
    entries: u64,
    records: u64,
    records_at: usize,
) -> Result<usize, Fault>
    ensures { told result ≡ stop (entries_from entries records records_at s.now start) }
{
    if records != entries {
        return Err(Fault {
            refusal: Refusal::ValueNotAdmitted,
            at: records_at,
        });
    }
    let last = entries_end(s, start, entries as usize)?;
    if last < s.len() {
        return Err(Fault {
            refusal: Refusal::BytesLeft,
            at: last,
        });
    }
    Ok(last)
}

// After so many entries.
pub fn entries_end(s: &[u8], start: usize, count: usize) -> Result<usize, Fault>
    ensures { told result ≡ stop (repeated read_entry count s.now start) }
{
    items_end(&Entry, s, start, count)
}

struct Entry;

impl Item for Entry {
    ghost read = { λ _ s at. only_end (read_entry s at) };

    // An entry is laid out as bytes B are, and ends where they do.
    #[tactic(auto, using(crate::proofs::Entries::entry_after))]
    fn after(&self, s: &[u8], at: usize) -> Option<usize> {
        after_bytes(s, at)
    }

    fn end(&self, s: &[u8], at: usize) -> Result<usize, Fault> {
        entry_end(s, at)
    }
}
