// The chunk reader: a chunk's entries one after another.
ghost use Rattle.std.specs.Prelude.{◌≡◌};
ghost use Rattle.slot_chunk_reader.specs.Slots.{open_number, reader_opened, next_found, reader_after, entry_after};
ghost use Rattle.krevilosh.specs.Answer.{next_answer};

// Opens a chunk, header first, which is checked as the rest of a Deliver is.
#[unsafe(no_mangle)]
pub extern "C" fn krevilosh_chunk_open(chunk: &[u8], reader: &mut [u64; 4]) -> u64
    ensures value { result ≡ open_number chunk.now }
    ensures reader_after { reader.new ≡ reader_opened chunk.now reader.old }
{
    krevilosh::krevilosh_chunk_open(chunk, reader)
}

// The next entry, if one is left.
#[unsafe(no_mangle)]
pub extern "C" fn krevilosh_chunk_next(
    chunk: &[u8],
    reader: &mut [u64; 4],
    entry: &mut [u64; 8],
) -> u64
    ensures value { result ≡ next_answer (next_found chunk.now reader.old) }
    ensures reader_after { reader.new ≡ reader_after chunk.now reader.old }
    ensures entry_after { entry.new ≡ entry_after chunk.now reader.old entry.old }
{
    krevilosh::krevilosh_chunk_next(chunk, reader, entry)
}
