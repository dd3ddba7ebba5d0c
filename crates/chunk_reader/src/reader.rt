// The reader itself: it keeps the chunk's bytes and its own place. Each method calls a function of spot.rt on the bytes and the
// place. `Found` holds a place and no bytes, as `Spot` does; so a question gives the reader back with what it found, and `message`
// hands out the part.
ghost use Rattle.std.specs.Prelude.{◌≡◌};
ghost use Rattle.chunk_reader.specs.Messages.{message_in, answer};
ghost use Rattle.chunk_reader.specs.Reader.{new_reader, next_reader};

use crate::spot::{Found, Spot, advance, part, start};

#[derive(Clone, Copy)]
pub struct ChunkReader<'a> {
    // The header first.
    pub chunk: &'a [u8],
    pub spot: Spot,
}

impl<'a> ChunkReader<'a> {
    // Made of a chunk's bytes, which are checked as the rest of a Deliver is. If a check fails, the reader says its refusal,
    // now and for ever.
    pub fn new(chunk: &'a [u8]) -> ChunkReader<'a>
        ensures { result ≡ new_reader chunk.entry }
    {
        ChunkReader {
            chunk,
            spot: start(chunk),
        }
    }

    // Asked for the next message. It gives them in order, each once, and is then done for ever (specs/Run.antt).
    pub fn next(self) -> ChunkReader<'a>
        ensures { result ≡ next_reader self.entry }
    {
        ChunkReader {
            chunk: self.chunk,
            spot: advance(self.chunk, self.spot),
        }
    }

    // What it says.
    pub fn found(self) -> Found
        ensures { result ≡ self.entry.spot.found }
    {
        self.spot.found
    }

    // The bytes of the message that it says; empty if it says none.
    pub fn message(self) -> &'a [u8]
        ensures { result.now ≡ message_in self.entry.chunk.now self.entry.spot.found }
    {
        part(self.chunk, self.spot)
    }
}

// What a reader of the chunk says when it is asked for the (k + 1)-th time. Once it is done there is no need to ask on.
pub fn nth(chunk: &[u8], k: usize) -> Found
    ensures { result ≡ answer chunk.now k }
{
    let mut reader = ChunkReader::new(chunk);
    let before = reader.spot.left.min(k);
    for _ in 0..before {
        reader = reader.next();
    }
    reader.next().found()
}
