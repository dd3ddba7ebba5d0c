// The key decision (01 "Frame and keys": "The decision is one over the number's whole range").
ghost use Rattle.std.specs.Prelude.{◌≡◌, [], ◌∷◌, ℕ, Some};
ghost use Rattle.protocol.specs.Decision.{listed_of, listings, under, decision_of, decide, row_told};
ghost use Rattle.protocol.specs.Table.{row_of};

use crate::field::{
    ACTIVE, BROKERS, CHUNK, COMMAND_VERSIONS, FILTERED_MESSAGES, MESSAGES, NAMES, NULLABLE_BYTES,
    NULLABLE_REFERENCE, PROPERTIES, PUBLISHING_ERRORS, PUBLISHING_IDS, REFERENCE, SPECIFICATION,
    SPECIFICATION_OR_NONE, STATISTICS, STREAMS, TEXT, U8, U16, U32, U64,
};
use crate::kind::FieldKind;
use crate::refusal::Refusal;

// A layout is its fields in wire order. A key that is listed has one for version 1, and two keys have one for version 2.
#[derive(Clone, Copy)]
struct Layouts {
    first: &'static [FieldKind],
    second: Option<&'static [FieldKind]>,
}

// The layout of a key and a version: its fields in wire order.
pub fn layout_of(key: u16, version: u16) -> Result<&'static [FieldKind], Refusal>
    ensures decision { decision_of result key version ≡ Some (decide key version) }
    ensures row { row_told result ≡ row_of key version }
{
    let layouts = layouts_of(key).ok_or(Refusal::UnknownKey)?;
    match version {
        1 => Ok(layouts.first),
        2 => layouts.second.ok_or(Refusal::UnknownVersion),
        _ => Err(Refusal::UnknownVersion),
    }
}

// One decision over all 65,536 keys; the ranges are those that no layout has.
#[tactic(auto, unfolding(crate::specs::Layouts::row_by, crate::specs::Table::table, crate::specs::Decision::versions_in))]
fn layouts_of(key: u16) -> Option<Layouts>
    ensures { listed_of key result ≡ listings key }
{
    match key {
        0x0000 => None,
        // DeclarePublisher
        0x0001 => one(&[U32, U8, NULLABLE_REFERENCE, TEXT]),
        // Publish
        0x0002 => two(&[U8, MESSAGES], &[U8, FILTERED_MESSAGES]),
        // PublishConfirm
        0x0003 => one(&[U8, PUBLISHING_IDS]),
        // PublishError
        0x0004 => one(&[U8, PUBLISHING_ERRORS]),
        // QueryPublisher
        0x0005 => one(&[U32, REFERENCE, TEXT]),
        // DeletePublisher
        0x0006 => one(&[U32, U8]),
        // Subscribe
        0x0007 => one(&[U32, U8, TEXT, SPECIFICATION, U16, PROPERTIES]),
        // Deliver
        0x0008 => two(&[U8, CHUNK], &[U8, U64, CHUNK]),
        // Credit
        0x0009 => one(&[U8, U16]),
        // StoreOffset
        0x000a => one(&[REFERENCE, TEXT, U64]),
        // QueryOffset
        0x000b => one(&[U32, REFERENCE, TEXT]),
        // Unsubscribe
        0x000c => one(&[U32, U8]),
        // Create
        0x000d => one(&[U32, TEXT, PROPERTIES]),
        // Delete
        0x000e => one(&[U32, TEXT]),
        // Metadata
        0x000f => one(&[U32, NAMES]),
        // MetadataUpdate
        0x0010 => one(&[U16, TEXT]),
        // PeerProperties
        0x0011 => one(&[U32, PROPERTIES]),
        // SaslHandshake
        0x0012 => one(&[U32]),
        // SaslAuthenticate
        0x0013 => one(&[U32, TEXT, NULLABLE_BYTES]),
        // Tune
        0x0014 => one(&[U32, U32]),
        // Open
        0x0015 => one(&[U32, TEXT]),
        // Close
        0x0016 => one(&[U32, U16, TEXT]),
        // Heartbeat
        0x0017 => one(&[]),
        // Route
        0x0018 => one(&[U32, TEXT, TEXT]),
        // Partitions
        0x0019 => one(&[U32, TEXT]),
        // ConsumerUpdate
        0x001a => one(&[U32, U8, ACTIVE]),
        // ExchangeCommandVersions
        0x001b => one(&[U32, COMMAND_VERSIONS]),
        // StreamStats
        0x001c => one(&[U32, TEXT]),
        // CreateSuperStream
        0x001d => one(&[U32, TEXT, NAMES, NAMES, PROPERTIES]),
        // DeleteSuperStream
        0x001e => one(&[U32, TEXT]),
        0x001f..=0x8000 => None,
        // DeclarePublisher response
        0x8001 => one(&[U32, U16]),
        0x8002..=0x8004 => None,
        // QueryPublisher response
        0x8005 => one(&[U32, U16, U64]),
        // DeletePublisher response
        0x8006 => one(&[U32, U16]),
        // Subscribe response
        0x8007 => one(&[U32, U16]),
        0x8008 => None,
        // Credit response
        0x8009 => one(&[U16, U8]),
        0x800a => None,
        // QueryOffset response
        0x800b => one(&[U32, U16, U64]),
        // Unsubscribe response
        0x800c => one(&[U32, U16]),
        // Create response
        0x800d => one(&[U32, U16]),
        // Delete response
        0x800e => one(&[U32, U16]),
        // Metadata response
        0x800f => one(&[U32, BROKERS, STREAMS]),
        0x8010 => None,
        // PeerProperties response
        0x8011 => one(&[U32, U16, PROPERTIES]),
        // SaslHandshake response
        0x8012 => one(&[U32, U16, NAMES]),
        // SaslAuthenticate response
        0x8013 => one(&[U32, U16, NULLABLE_BYTES]),
        // Tune response
        0x8014 => one(&[U32, U32]),
        // Open response
        0x8015 => one(&[U32, U16, PROPERTIES]),
        // Close response
        0x8016 => one(&[U32, U16]),
        0x8017 => None,
        // Route response
        0x8018 => one(&[U32, U16, NAMES]),
        // Partitions response
        0x8019 => one(&[U32, U16, NAMES]),
        // ConsumerUpdate response
        0x801a => one(&[U32, U16, SPECIFICATION_OR_NONE]),
        // ExchangeCommandVersions response
        0x801b => one(&[U32, U16, COMMAND_VERSIONS]),
        // StreamStats response
        0x801c => one(&[U32, U16, STATISTICS]),
        // CreateSuperStream response
        0x801d => one(&[U32, U16]),
        // DeleteSuperStream response
        0x801e => one(&[U32, U16]),
        0x801f..=0xffff => None,
    }
}

// A key that has version 1 alone.
fn one(first: &'static [FieldKind]) -> Option<Layouts>
    ensures { (k : ℕ) → listed_of k result ≡ under k 1 first.now ∷ [] }
{
    let layouts = Layouts {
        first,
        second: None,
    };
    Some(layouts)
}

// A key that has two versions.
fn two(first: &'static [FieldKind], second: &'static [FieldKind]) -> Option<Layouts>
    ensures { (k : ℕ) → listed_of k result ≡ under k 1 first.now ∷ under k 2 second.now ∷ [] }
{
    Some(Layouts {
        first,
        second: Some(second),
    })
}
