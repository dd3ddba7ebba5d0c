// The typed frames of slots: version 1 of the requests and commands. The fields of a case are taken in the order in which they
// are written here, which is that of the wire. A key of the range that is not listed gives a Heartbeat.
#![tactic(auto, unfolding(slot_taker::specs::Typed::typed_fields, protocol::specs::Decision::decide, protocol::specs::Decision::versions_in, protocol::specs::Decision::of_version, protocol::specs::Table::table, protocol::specs::Table::row_in))]

ghost use Rattle.std.specs.Prelude.{◌≡◌, ◌<◌, ◌≤◌};
ghost use Rattle.protocol.specs.Frames.{fields_of};
ghost use Rattle.slot_taker.specs.Typed.{typed_fields};

use protocol::Frame;
use slot_taker::Taker;

// The keys from 0001 to 000c.
pub fn publishing_and_consuming(key: u64, slots: &[u64]) -> Frame
    ensures { key < 0x000d → fields_of result ≡ typed_fields key 1 slots.now }
{
    let mut fields = Taker::content(slots);
    match key {
        0x0001 => Frame::DeclarePublisher {
            correlation_id: fields.number(),
            publisher_id: fields.number(),
            reference: fields.nullable(),
            stream: fields.place(),
        },
        0x0002 => Frame::Publish {
            publisher_id: fields.number(),
            messages: fields.list(),
        },
        0x0003 => Frame::PublishConfirm {
            publisher_id: fields.number(),
            publishing_ids: fields.list(),
        },
        0x0004 => Frame::PublishError {
            publisher_id: fields.number(),
            errors: fields.list(),
        },
        0x0005 => Frame::QueryPublisher {
            correlation_id: fields.number(),
            reference: fields.place(),
            stream: fields.place(),
        },
        0x0006 => Frame::DeletePublisher {
            correlation_id: fields.number(),
            publisher_id: fields.number(),
        },
        0x0007 => Frame::Subscribe {
            correlation_id: fields.number(),
            subscription_id: fields.number(),
            stream: fields.place(),
            offset: fields.offset(),
            credit: fields.number(),
            properties: fields.list(),
        },
        0x0008 => Frame::Deliver {
            subscription_id: fields.number(),
            chunk: fields.chunk(),
        },
        0x0009 => Frame::Credit {
            subscription_id: fields.number(),
            credit: fields.number(),
        },
        0x000a => Frame::StoreOffset {
            reference: fields.place(),
            stream: fields.place(),
            offset: fields.number(),
        },
        0x000b => Frame::QueryOffset {
            correlation_id: fields.number(),
            reference: fields.place(),
            stream: fields.place(),
        },
        0x000c => Frame::Unsubscribe {
            correlation_id: fields.number(),
            subscription_id: fields.number(),
        },
        _ => Frame::Heartbeat,
    }
}

// The keys from 000d to 0017.
pub fn streams_and_connection(key: u64, slots: &[u64]) -> Frame
    ensures { 0x000d ≤ key → key < 0x0018 → fields_of result ≡ typed_fields key 1 slots.now }
{
    let mut fields = Taker::content(slots);
    match key {
        0x000d => Frame::Create {
            correlation_id: fields.number(),
            stream: fields.place(),
            arguments: fields.list(),
        },
        0x000e => Frame::Delete {
            correlation_id: fields.number(),
            stream: fields.place(),
        },
        0x000f => Frame::Metadata {
            correlation_id: fields.number(),
            streams: fields.list(),
        },
        0x0010 => Frame::MetadataUpdate {
            code: fields.number(),
            stream: fields.place(),
        },
        0x0011 => Frame::PeerProperties {
            correlation_id: fields.number(),
            properties: fields.list(),
        },
        0x0012 => Frame::SaslHandshake {
            correlation_id: fields.number(),
        },
        0x0013 => Frame::SaslAuthenticate {
            correlation_id: fields.number(),
            mechanism: fields.place(),
            opaque: fields.nullable(),
        },
        0x0014 => Frame::Tune {
            frame_max: fields.number(),
            heartbeat: fields.number(),
        },
        0x0015 => Frame::Open {
            correlation_id: fields.number(),
            virtual_host: fields.place(),
        },
        0x0016 => Frame::Close {
            correlation_id: fields.number(),
            closing_code: fields.number(),
            closing_reason: fields.place(),
        },
        0x0017 => Frame::Heartbeat,
        _ => Frame::Heartbeat,
    }
}

// The keys from 0018 to 001e.
pub fn extensions(key: u64, slots: &[u64]) -> Frame
    ensures { 0x0018 ≤ key → key < 0x8000 → fields_of result ≡ typed_fields key 1 slots.now }
{
    let mut fields = Taker::content(slots);
    match key {
        0x0018 => Frame::Route {
            correlation_id: fields.number(),
            routing_key: fields.place(),
            super_stream: fields.place(),
        },
        0x0019 => Frame::Partitions {
            correlation_id: fields.number(),
            super_stream: fields.place(),
        },
        0x001a => Frame::ConsumerUpdate {
            correlation_id: fields.number(),
            subscription_id: fields.number(),
            active: fields.flag(),
        },
        0x001b => Frame::ExchangeCommandVersions {
            correlation_id: fields.number(),
            commands: fields.list(),
        },
        0x001c => Frame::StreamStats {
            correlation_id: fields.number(),
            stream: fields.place(),
        },
        0x001d => Frame::CreateSuperStream {
            correlation_id: fields.number(),
            name: fields.place(),
            partitions: fields.list(),
            binding_keys: fields.list(),
            arguments: fields.list(),
        },
        0x001e => Frame::DeleteSuperStream {
            correlation_id: fields.number(),
            name: fields.place(),
        },
        _ => Frame::Heartbeat,
    }
}
