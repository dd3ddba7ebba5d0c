// What kinds of field there are, and what kinds of byte string, of list and of list element.
ghost use Rattle.std.specs.Prelude.{◌≡◌};
ghost use Rattle.protocol.specs.Kinds.{plain_list};

use wire::Width;

// A kind of field.
#[derive(Clone, Copy, Debug, PartialEq, Eq)]
pub enum FieldKind {
    // A number that fills its bytes.
    Number(Width),
    // Active, which is 0 or 1.
    Active,
    // A signed number of eight bytes.
    Signed,
    String { form: Form, nullable: bool },
    Specification { admits_none: bool },
    List(ListKind),
    Chunk,
}

// A byte string's form: text T, a reference R (text of at most 256 bytes), or bytes B.
#[derive(Clone, Copy, Debug, PartialEq, Eq)]
pub enum Form {
    Text,
    Reference,
    Bytes,
}

// What a list's elements are, by the row that 01 writes in brackets.
#[derive(Clone, Copy, Debug, PartialEq, Eq)]
pub enum Element {
    // [u64 B] of Publish
    Message,
    // [u64 T? B] of Publish, version 2
    FilteredMessage,
    // [u64] of PublishConfirm
    PublishingId,
    // [u64 u16] of PublishError
    PublishingError,
    // [T T]: properties and arguments
    Property,
    // [T]: streams, mechanisms, partitions and binding keys
    Name,
    // [u16 u16 u16] of ExchangeCommandVersions
    CommandVersions,
    // [u16 T u32] of Metadata's response
    Broker,
    // [T u16 u16 [u16]] of Metadata's response
    StreamMetadata,
    // [T i64] of StreamStats' response
    Statistic,
    // [u16]: the replicas in an element of Metadata's response
    BrokerReference,
}

// What a list admits.
#[derive(Clone, Copy, Debug, PartialEq, Eq)]
pub struct ListRule {
    pub keys: Keys,
    pub presence: Presence,
}

impl ListRule {
    // Elements may be alike, and the list is always there.
    pub const PLAIN: ListRule = ListRule {
        keys: Keys::MayRepeat,
        presence: Presence::Required,
    };
}

// Whether two elements of a list may have the same key.
#[derive(Clone, Copy, Debug, PartialEq, Eq)]
pub enum Keys {
    MayRepeat,
}

// Whether a list may be left out at the frame's end.
#[derive(Clone, Copy, Debug, PartialEq, Eq)]
pub enum Presence {
    Required,
}

// A kind of list: its elements, and its rule.
#[derive(Clone, Copy, Debug, PartialEq, Eq)]
pub struct ListKind {
    pub element: Element,
    pub rule: ListRule,
}

// A list whose elements may be alike, and which is always there.
pub fn plain_list(element: Element) -> ListKind
    ensures { result ≡ plain_list element }
{
    ListKind {
        element,
        rule: ListRule::PLAIN,
    }
}
