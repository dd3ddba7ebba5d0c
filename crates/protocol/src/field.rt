// The kinds of field that a layout or a list's element has, each with its notation in 01 ("Numbers and text on the wire",
// "Frame and keys"); and what may stand for them.
ghost use Rattle.std.specs.Prelude.{◌≡◌, map};
ghost use Rattle.std.specs.Option.{option_copied};
ghost use Rattle.std.proofs.Math.Option.{Option};
ghost use Rattle.protocol.specs.Kinds.{Kind};
ghost use Rattle.protocol.specs.Layouts.{kind_numbered, kind_said, kinds, own_kind};

use crate::kind::{Element, FieldKind, Form, ListKind, ListRule};
use wire::Width;

pub const U8: FieldKind = FieldKind::Number(Width::One);

pub const U16: FieldKind = FieldKind::Number(Width::Two);

pub const U32: FieldKind = FieldKind::Number(Width::Four);

pub const U64: FieldKind = FieldKind::Number(Width::Eight);

pub const I64: FieldKind = FieldKind::Signed;

pub const ACTIVE: FieldKind = FieldKind::Active;
// T
pub const TEXT: FieldKind = FieldKind::String {
    form: Form::Text,
    nullable: false,
};
// R
pub const REFERENCE: FieldKind = FieldKind::String {
    form: Form::Reference,
    nullable: false,
};
// B
pub const BYTES: FieldKind = FieldKind::String {
    form: Form::Bytes,
    nullable: false,
};
// T?
pub const NULLABLE_TEXT: FieldKind = FieldKind::String {
    form: Form::Text,
    nullable: true,
};
// R?
pub const NULLABLE_REFERENCE: FieldKind = FieldKind::String {
    form: Form::Reference,
    nullable: true,
};
// B?
pub const NULLABLE_BYTES: FieldKind = FieldKind::String {
    form: Form::Bytes,
    nullable: true,
};
// spec, of type 1 to 5
pub const SPECIFICATION: FieldKind = FieldKind::Specification { admits_none: false };
// spec, of type 0 to 5
pub const SPECIFICATION_OR_NONE: FieldKind = FieldKind::Specification { admits_none: true };

pub const CHUNK: FieldKind = FieldKind::Chunk;

// [u64 B]
pub const MESSAGES: FieldKind = FieldKind::List(ListKind {
    element: Element::Message,
    rule: ListRule::PLAIN,
});
// [u64 T? B]
pub const FILTERED_MESSAGES: FieldKind = FieldKind::List(ListKind {
    element: Element::FilteredMessage,
    rule: ListRule::PLAIN,
});
// [u64]
pub const PUBLISHING_IDS: FieldKind = FieldKind::List(ListKind {
    element: Element::PublishingId,
    rule: ListRule::PLAIN,
});
// [u64 u16]
pub const PUBLISHING_ERRORS: FieldKind = FieldKind::List(ListKind {
    element: Element::PublishingError,
    rule: ListRule::PLAIN,
});
// [T T]
pub const PROPERTIES: FieldKind = FieldKind::List(ListKind {
    element: Element::Property,
    rule: ListRule::PLAIN,
});
// [T]
pub const NAMES: FieldKind = FieldKind::List(ListKind {
    element: Element::Name,
    rule: ListRule::PLAIN,
});
// [u16 u16 u16]
pub const COMMAND_VERSIONS: FieldKind = FieldKind::List(ListKind {
    element: Element::CommandVersions,
    rule: ListRule::PLAIN,
});
// [u16 T u32]
pub const BROKERS: FieldKind = FieldKind::List(ListKind {
    element: Element::Broker,
    rule: ListRule::PLAIN,
});
// [T u16 u16 [u16]]
pub const STREAMS: FieldKind = FieldKind::List(ListKind {
    element: Element::StreamMetadata,
    rule: ListRule::PLAIN,
});
// [T i64]
pub const STATISTICS: FieldKind = FieldKind::List(ListKind {
    element: Element::Statistic,
    rule: ListRule::PLAIN,
});
// [u16]
pub const BROKER_REFERENCES: FieldKind = FieldKind::List(ListKind {
    element: Element::BrokerReference,
    rule: ListRule::PLAIN,
});

// The kinds by their numbers, which are the library's own and stand in no frame. 0 is no kind's.
#[tactic(auto, unfolding(crate::specs::Layouts::kinds))]
fn kinds() -> &'static [Option<FieldKind>]
    ensures { map kind_said result.now ≡ kinds }
{
    &[
        None,
        Some(U8),
        Some(U16),
        Some(U32),
        Some(U64),
        Some(I64),
        Some(ACTIVE),
        Some(TEXT),
        Some(REFERENCE),
        Some(BYTES),
        Some(NULLABLE_TEXT),
        Some(NULLABLE_REFERENCE),
        Some(NULLABLE_BYTES),
        Some(SPECIFICATION),
        Some(SPECIFICATION_OR_NONE),
        Some(CHUNK),
        // The lists, from 16 on.
        Some(MESSAGES),
        Some(FILTERED_MESSAGES),
        Some(PUBLISHING_IDS),
        Some(PUBLISHING_ERRORS),
        Some(PROPERTIES),
        Some(NAMES),
        Some(COMMAND_VERSIONS),
        Some(BROKERS),
        Some(STREAMS),
        Some(STATISTICS),
        Some(BROKER_REFERENCES),
    ]
}

// The kind of field that a number stands for, if it stands for one.
pub fn field_kind(number: u8) -> Option<FieldKind>
    ensures { kind_said result ≡ kind_numbered number }
{
    numbered(number).copied()
}

// The same, lent from the table.
fn numbered(number: u8) -> Option<&'static FieldKind>
    ensures { kind_said (option_copied result) ≡ kind_numbered number }
{
    let kinds = kinds();
    let number = number as usize;
    if kinds.len() <= number {
        return None;
    }
    kinds[number].as_ref()
}

// What stands in a layout for a kind of field: the kind itself, or its number. A number that is no kind's is passed over.
pub trait LayoutField {
    // The kind, if there is one.
    ghost stands_for: { Self → Option Kind };

    // It is lent, so that a loop over kinds reads each where it stands.
    fn kind(&self) -> Option<&FieldKind>
        ensures { kind_said (option_copied result) ≡ stands_for self.now };
}

impl LayoutField for FieldKind {
    ghost stands_for = { own_kind };

    #[inline(always)]
    fn kind(&self) -> Option<&FieldKind>
        ensures { kind_said (option_copied result) ≡ own_kind self.now }
    {
        Some(self)
    }
}

impl LayoutField for u8 {
    ghost stands_for = { kind_numbered };

    fn kind(&self) -> Option<&FieldKind>
        ensures { kind_said (option_copied result) ≡ kind_numbered self.now }
    {
        numbered(*self)
    }
}
