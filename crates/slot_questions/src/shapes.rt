// The elements of lists, by the shapes that the host's header numbers.
ghost use Rattle.std.specs.Prelude.{◌≡◌};
ghost use Rattle.protocol.specs.Fields.{place};
ghost use Rattle.protocol.specs.Refusals.{number_in};
ghost use Rattle.questions.specs.Answer.{asked_slots};
ghost use Rattle.questions.specs.Questions.{number_of};
ghost use Rattle.slot_questions.specs.Asked.{ask_element, shape_of};
ghost use Rattle.slot_questions.specs.Shapes.{kind_in};

use protocol::{Element, Elements, Place, Refusal};

// The element at an index of a list, given by its count and the place of its elements in the source. Only an element that is found
// changes the slots.
pub fn element(
    shape: u8,
    source: &[u8],
    count: u64,
    at: u64,
    length: u64,
    index: u64,
    element: &mut [u64; 8],
) -> Result<(), Refusal>
    ensures value { number_in result ≡ number_of (ask_element (shape_of shape) source.now count (place at length) index) }
    ensures element_after { element.new ≡ asked_slots element.old (ask_element (shape_of shape) source.now count (place at length) index) }
{
    let Some(kind) = kind_of(shape) else {
        return Err(Refusal::ValueNotAdmitted);
    };
    let list = Elements {
        count: count as usize,
        place: Place {
            at: at as usize,
            len: length as usize,
        },
    };
    questions::element(kind, source, list, index as usize, element)
}

// The kind of element that a number stands for.
fn kind_of(shape: u8) -> Option<Element>
    ensures { kind_in result ≡ shape_of shape }
{
    match shape {
        1 => Some(Element::Message),
        2 => Some(Element::FilteredMessage),
        3 => Some(Element::PublishingId),
        4 => Some(Element::PublishingError),
        5 => Some(Element::Property),
        6 => Some(Element::Name),
        7 => Some(Element::CommandVersions),
        8 => Some(Element::Broker),
        9 => Some(Element::StreamMetadata),
        10 => Some(Element::Statistic),
        11 => Some(Element::BrokerReference),
        _ => None,
    }
}
