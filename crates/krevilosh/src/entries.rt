// The chunk reader: a chunk's entries one after another.
ghost use Rattle.std.specs.Prelude.{◌≡◌};
ghost use Rattle.slot_chunk_reader.specs.Slots.{open_number, reader_opened, next_found, reader_after, entry_after};
ghost use Rattle.krevilosh.specs.Answer.{next_answer};

use crate::packed;
use chunk_reader::Found;

// Opens a chunk, header first, which is checked as the rest of a Deliver is.
pub fn krevilosh_chunk_open(chunk: &[u8], reader: &mut [u64; 4]) -> u64
    ensures value { result ≡ open_number chunk.now }
    ensures reader_after { reader.new ≡ reader_opened chunk.now reader.old }
{
    slot_chunk_reader::open_chunk(chunk, reader) as u64
}

// The next entry, if one is left.
pub fn krevilosh_chunk_next(chunk: &[u8], reader: &mut [u64; 4], entry: &mut [u64; 8]) -> u64
    ensures value { result ≡ next_answer (next_found chunk.now reader.old) }
    ensures reader_after { reader.new ≡ reader_after chunk.now reader.old }
    ensures entry_after { entry.new ≡ entry_after chunk.now reader.old entry.old }
{
    let found = slot_chunk_reader::next_entry(chunk, reader, entry);
    number_of(found)
}

// What is answered: an entry with a 1 above the number, which tells it from the end.
fn number_of(found: Found) -> u64
    ensures { result ≡ next_answer found }
{
    match found {
        Found::Ready | Found::Done => 0,
        Found::Message(_) => packed(0, 1),
        Found::Refused(number) => number as u64,
    }
}
