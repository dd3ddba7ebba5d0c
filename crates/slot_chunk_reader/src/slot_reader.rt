// The reader as a host that is written in C holds it: four slots. Slot 0 is where the next entry begins, slot 1 how many
// entries are left; the last two are kept for later use.
ghost use Rattle.std.specs.Prelude.{◌≡◌};
ghost use Rattle.slot_chunk_reader.specs.Slots.{open_number, reader_opened, next_found, reader_after, entry_after};

use chunk_reader::{Found, Spot, advance, start};
use slots::place_slots;

// Puts the reader at a chunk's first entry. The bytes are checked as the rest of a Deliver is; the answer is the number of
// the check that refuses them, or 0.
pub fn open_chunk(chunk: &[u8], reader: &mut [u64; 4]) -> u8
    ensures value { result ≡ open_number chunk.now }
    ensures reader_after { reader.new ≡ reader_opened chunk.now reader.old }
{
    let first = start(chunk);
    let found = first.found;
    let left = first.left;
    if let Found::Refused(number) = found {
        return number;
    }
    *reader = [48, left as u64, 0, 0];
    0
}

// Fills the entry's slots with the next entry, and moves the reader past it. At the end and on a refusal nothing is
// changed. Slots that the host made up are read like any others.
pub fn next_entry(chunk: &[u8], reader: &mut [u64; 4], entry: &mut [u64; 8]) -> Found
    ensures value { result ≡ next_found chunk.now reader.old }
    ensures reader_after { reader.new ≡ reader_after chunk.now reader.old }
    ensures entry_after { entry.new ≡ entry_after chunk.now reader.old entry.old }
{
    let at = reader[0] as usize;
    let left = reader[1] as usize;
    let next = advance(
        chunk,
        Spot {
            at,
            left,
            found: Found::Ready,
        },
    );
    let next_at = next.at;
    let next_left = next.left;
    let found = next.found;
    if let Found::Message(place) = found {
        reader[0] = next_at as u64;
        reader[1] = next_left as u64;
        *entry = place_slots(place);
    }
    found
}
