// The messages of chunks, by the slots of a Deliver.
ghost use Rattle.std.specs.Prelude.{◌≡◌};
ghost use Rattle.wire.specs.Signed.{signed};
ghost use Rattle.protocol.specs.Fields.{place};
ghost use Rattle.protocol.specs.Refusals.{number_in};
ghost use Rattle.questions.specs.Answer.{asked_slots, place_answer};
ghost use Rattle.questions.specs.Questions.{message_of, number_of};
ghost use Rattle.slot_questions.specs.Asked.{ask_message, asked_entries};

use protocol::{Place, Refusal};
use questions::message_place;
use slots::place_slots;

// The message at an index of the chunk in a flat Deliver. Only a message that is found changes the slots.
pub fn message(
    frame: &[u64; 24],
    source: &[u8],
    index: u64,
    message: &mut [u64; 8],
) -> Result<(), Refusal>
    ensures value { number_in result ≡ number_of (ask_message frame.now source.now index) }
    ensures message_after { message.new ≡ asked_slots message.old (ask_message frame.now source.now index) }
{
    if frame[0] != 0x0008 {
        return Err(Refusal::UnknownKey);
    }
    let found = match frame[1] {
        1 => place_of(source, frame[4], frame[5], frame[15], frame[16], index)?,
        2 => place_of(source, frame[5], frame[6], frame[16], frame[17], index)?,
        _ => return Err(Refusal::UnknownVersion),
    };
    *message = place_slots(found);
    Ok(())
}

// The place of a message, from a chunk's type, its entry count, and the place of its data.
fn place_of(
    source: &[u8],
    kind: u64,
    entries: u64,
    at: u64,
    length: u64,
    index: u64,
) -> Result<Place, Refusal>
    ensures { place_answer result ≡ message_of source.now (signed 8 kind) (asked_entries entries) (place at length) index }
{
    let data = Place {
        at: at as usize,
        len: length as usize,
    };
    message_place(source, kind, asked_entries(entries), data, index as usize)
}

// The entry count. No chunk has as many as a count that is too wide for its field, so no index is below it.
fn asked_entries(entries: u64) -> u16
    ensures { result ≡ asked_entries entries }
{
    u16::try_from(entries).unwrap_or(0)
}
