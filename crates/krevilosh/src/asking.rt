// Questions about what was read: the elements of lists, and the messages of chunks.
ghost use Rattle.std.specs.Prelude.{◌≡◌};
ghost use Rattle.protocol.specs.Fields.{place};
ghost use Rattle.questions.specs.Answer.{asked_slots};
ghost use Rattle.questions.specs.Questions.{number_of};
ghost use Rattle.slot_questions.specs.Asked.{ask_element, ask_message, shape_of};

use crate::refusal_number;

// The element at an index of a list, given by its count and the place of its elements in the source.
pub fn krevilosh_element(
    shape: u8,
    source: &[u8],
    count: u64,
    at: u64,
    length: u64,
    index: u64,
    element: &mut [u64; 8],
) -> u64
    ensures value { result ≡ number_of (ask_element (shape_of shape) source.now count (place at length) index) }
    ensures element_after { element.new ≡ asked_slots element.old (ask_element (shape_of shape) source.now count (place at length) index) }
{
    refusal_number(slot_questions::element(shape, source, count, at, length, index, element))
}

// The message at an index of the chunk in a flat Deliver.
pub fn krevilosh_message(
    frame: &[u64; 24],
    source: &[u8],
    index: u64,
    message: &mut [u64; 8],
) -> u64
    ensures value { result ≡ number_of (ask_message frame.now source.now index) }
    ensures message_after { message.new ≡ asked_slots message.old (ask_message frame.now source.now index) }
{
    refusal_number(slot_questions::message(frame, source, index, message))
}
