// The fields of a list's elements (01 "Frame and keys").
ghost use Rattle.std.specs.Prelude.{◌≡◌, true, All};
ghost use Rattle.protocol.specs.Kinds.{element_row};
ghost use Rattle.protocol.specs.Layouts.{is_in_elements, row_from};

use crate::field::{BROKER_REFERENCES, BYTES, I64, NULLABLE_TEXT, TEXT, U16, U32, U64};
use crate::kind::{Element, FieldKind};

// The fields of an element, in wire order.
#[tactic(auto, unfolding(crate::specs::Layouts::row_by))]
pub fn element_fields(kind: Element) -> &'static [FieldKind]
    ensures row { row_from result.now ≡ element_row kind }
    ensures in_elements { All (λ k. is_in_elements k ≡ true) result.now }
{
    match kind {
        Element::Message => &[U64, BYTES],
        Element::FilteredMessage => &[U64, NULLABLE_TEXT, BYTES],
        Element::PublishingId => &[U64],
        Element::PublishingError => &[U64, U16],
        Element::Property => &[TEXT, TEXT],
        Element::Name => &[TEXT],
        Element::CommandVersions => &[U16, U16, U16],
        Element::Broker => &[U16, TEXT, U32],
        Element::StreamMetadata => &[TEXT, U16, U16, BROKER_REFERENCES],
        Element::Statistic => &[TEXT, I64],
        Element::BrokerReference => &[U16],
    }
}
