// A chunk reader's own place, as plain data, and the work that is done on it.
ghost use Rattle.std.specs.Prelude.{◌≡◌};
ghost use Rattle.chunk_reader.specs.Messages.{is_refused, message_in};
ghost use Rattle.chunk_reader.specs.Reader.{started, advanced};

use chunks::{chunk_end, entry_count, entry_end};
use protocol::Place;

// What a reader says.
#[derive(Clone, Copy)]
pub enum Found {
    // It was not asked yet.
    Ready,
    // The place of a message in the chunk's bytes.
    Message(Place),
    // There is no further message.
    Done,
    // The number of the check that failed.
    Refused(u8),
}

#[derive(Clone, Copy)]
pub struct Spot {
    // Where the next entry begins.
    pub at: usize,
    // How many entries are still to come.
    pub left: usize,
    pub found: Found,
}

// In front of the first entry, if the bytes are one well-formed chunk.
#[tactic(auto, using(crate::proofs::Spots::starts_refused, crate::proofs::Spots::starts_ready, protocol::proofs::Refused::some_number))]
pub fn start(s: &[u8]) -> Spot
    ensures { result ≡ started s.now }
{
    match chunk_end(s, 0) {
        Ok(_) => Spot {
            at: 48,
            left: entry_count(s),
            found: Found::Ready,
        },
        Err(fault) => Spot {
            at: 0,
            left: 0,
            found: Found::Refused(fault.refusal.number()),
        },
    }
}

// A question. A place that the host made up is read like any other (specs/Reader.antt, `advanced`).
#[tactic(auto, using(crate::proofs::Spots::stays_refused, crate::proofs::Spots::is_done, crate::proofs::Spots::entry_refused, crate::proofs::Spots::entry_found, protocol::proofs::Refused::some_number))]
pub fn advance(s: &[u8], p: Spot) -> Spot
    ensures { result ≡ advanced s.now p }
{
    if is_refused(p.found) {
        return p;
    }
    let at = p.at;
    let left = p.left;
    if left == 0 {
        return Spot {
            at,
            left: 0,
            found: Found::Done,
        };
    }
    match entry_end(s, at) {
        Ok(next) => {
            let first = at + 4;
            let place = Place {
                at: first,
                len: next - first,
            };
            Spot {
                at: next,
                left: left - 1,
                found: Found::Message(place),
            }
        }
        Err(fault) => Spot {
            at,
            left,
            found: Found::Refused(fault.refusal.number()),
        },
    }
}

// The message that was found, as a part of the chunk's bytes; empty if there is none, or if its place reaches outside,
// which only one that the host made up can do.
pub fn part<'a>(s: &'a [u8], p: Spot) -> &'a [u8]
    ensures { result.now ≡ message_in s.now p.found }
{
    match p.found {
        Found::Message(place) => parts::part(s, place),
        Found::Ready | Found::Done | Found::Refused(_) => &s[..0],
    }
}

fn is_refused(found: Found) -> bool
    ensures { result ≡ is_refused found }
{
    matches!(found, Found::Refused(_))
}
