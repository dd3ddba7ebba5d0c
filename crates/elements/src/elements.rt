// Elements one after another: where they end, or why one is refused.
ghost use Rattle.std.specs.Prelude.{◌≡◌, ◌<◌};
ghost use Rattle.protocol.specs.Kinds.{element_row};
ghost use Rattle.protocol.specs.declared.kind.Element.TheVariants as E;
ghost use Rattle.rules.specs.Outcome.{repeated};
ghost use Rattle.rules.specs.Reading.{read_row};
ghost use Rattle.byte_strings.specs.Stops.{only_end, stop, told};
ghost use Rattle.number_lists.specs.Fixed.{NumbersOf};

use crate::element::{element_end, walked_end};
use byte_strings::{Fault, Item, after_bytes, after_text, items_end};
use number_lists::fixed_end;
use protocol::Element;

// So many elements from a place on. The frequent kinds have a quick way of their own to where one ends, and elements of one width
// need no walk.
pub fn elements_end(s: &[u8], at: usize, kind: Element, count: usize) -> Result<usize, Fault>
    ensures { told result ≡ stop (repeated (read_row (element_row kind)) count s.now at) }
{
    match kind {
        Element::Message => items_end(&Message, s, at, count),
        Element::Name => items_end(&Name, s, at, count),
        Element::Property => items_end(&Property, s, at, count),
        Element::PublishingId => fixed(s, at, kind, 8, count),
        Element::PublishingError => fixed(s, at, kind, 10, count),
        Element::CommandVersions => fixed(s, at, kind, 6, count),
        Element::BrokerReference => fixed(s, at, kind, 2, count),
        Element::FilteredMessage | Element::Broker | Element::StreamMetadata | Element::Statistic =>
            walked_end(s, at, kind, count),
    }
}

struct Message;

impl Item for Message {
    ghost read = { λ _ s at. only_end (read_row (element_row E.Message) s at) };

    // Eight bytes of the publishing id, and then the message, whose length has four. One comparison tests for both.
    #[tactic(auto, using(crate::proofs::ElementEnds::message_cut, crate::proofs::ElementEnds::message_end), unfolding(wire::specs::Integers::Bytes))]
    fn after(&self, s: &[u8], at: usize) -> Option<usize> {
        if !wire::has_room(s.len(), at, 12) {
            return None;
        }
        after_bytes(s, at + 8)
    }

    fn end(&self, s: &[u8], at: usize) -> Result<usize, Fault> {
        element_end(s, at, Element::Message)
    }
}

struct Name;

impl Item for Name {
    ghost read = { λ _ s at. only_end (read_row (element_row E.Name) s at) };

    #[tactic(auto, using(crate::proofs::ElementEnds::name_end))]
    fn after(&self, s: &[u8], at: usize) -> Option<usize> {
        after_text(s, at)
    }

    fn end(&self, s: &[u8], at: usize) -> Result<usize, Fault> {
        element_end(s, at, Element::Name)
    }
}

struct Property;

impl Item for Property {
    ghost read = { λ _ s at. only_end (read_row (element_row E.Property) s at) };

    // The key, and then the value.
    #[tactic(auto, using(crate::proofs::ElementEnds::property_stopped, crate::proofs::ElementEnds::property_end))]
    fn after(&self, s: &[u8], at: usize) -> Option<usize> {
        let key = after_text(s, at)?;
        after_text(s, key)
    }

    fn end(&self, s: &[u8], at: usize) -> Result<usize, Fault> {
        element_end(s, at, Element::Property)
    }
}

// Elements of one width.
fn fixed(s: &[u8], at: usize, kind: Element, width: usize, count: usize) -> Result<usize, Fault>
    requires { NumbersOf (element_row kind) width × (0 < width) }
    ensures { told result ≡ stop (repeated (read_row (element_row kind)) count s.now at) }
{
    match fixed_end(s.len(), at, width, count) {
        Ok(end) => Ok(end),
        Err(first) => element_end(s, first, kind),
    }
}
