// The protocol's vocabulary: refusal numbers, response codes, keys and their layouts, and the typed frame.
#![tactic(auto)]

mod chunk;
mod element;
mod field;
mod frame;
mod kind;
mod layout;
mod offset;
mod place;
mod refusal;
mod response_code;

pub use chunk::{Chunk, ChunkHeader};
pub use element::element_fields;
pub use field::{LayoutField, field_kind};
pub use frame::Frame;
pub use kind::{Element, FieldKind, Form, Keys, ListKind, ListRule, Presence, plain_list};
pub use layout::layout_of;
pub use offset::OffsetSpecification;
pub use place::{Elements, Place};
pub use refusal::Refusal;
pub use response_code::ResponseCode;
