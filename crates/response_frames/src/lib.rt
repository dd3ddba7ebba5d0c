// The typed frames of slots: version 1 of the responses, as the requests. Most begin with a correlation id and a code.
#![tactic(auto, unfolding(slot_taker::specs::Typed::typed_fields, protocol::specs::Decision::decide, protocol::specs::Decision::versions_in, protocol::specs::Decision::of_version, protocol::specs::Table::table, protocol::specs::Table::row_in))]

ghost use Rattle.std.specs.Prelude.{◌≡◌, ◌<◌, ◌≤◌};
ghost use Rattle.protocol.specs.Frames.{fields_of};
ghost use Rattle.slot_taker.specs.Typed.{typed_fields};

use protocol::Frame;
use slot_taker::Taker;

// The keys from 8001 to 800c.
pub fn publishing_and_consuming(key: u64, slots: &[u64]) -> Frame
    ensures { 0x8000 ≤ key → key < 0x800d → fields_of result ≡ typed_fields key 1 slots.now }
{
    let mut fields = Taker::content(slots);
    match key {
        0x8001 => Frame::DeclarePublisherResponse {
            correlation_id: fields.number(),
            code: fields.code(),
        },
        0x8005 => Frame::QueryPublisherResponse {
            correlation_id: fields.number(),
            code: fields.code(),
            sequence: fields.number(),
        },
        0x8006 => Frame::DeletePublisherResponse {
            correlation_id: fields.number(),
            code: fields.code(),
        },
        0x8007 => Frame::SubscribeResponse {
            correlation_id: fields.number(),
            code: fields.code(),
        },
        0x8009 => Frame::CreditResponse {
            code: fields.code(),
            subscription_id: fields.number(),
        },
        0x800b => Frame::QueryOffsetResponse {
            correlation_id: fields.number(),
            code: fields.code(),
            offset: fields.number(),
        },
        0x800c => Frame::UnsubscribeResponse {
            correlation_id: fields.number(),
            code: fields.code(),
        },
        _ => Frame::Heartbeat,
    }
}

// The keys from 800d to 8016.
pub fn streams_and_connection(key: u64, slots: &[u64]) -> Frame
    ensures { 0x800d ≤ key → key < 0x8018 → fields_of result ≡ typed_fields key 1 slots.now }
{
    let mut fields = Taker::content(slots);
    match key {
        0x800d => Frame::CreateResponse {
            correlation_id: fields.number(),
            code: fields.code(),
        },
        0x800e => Frame::DeleteResponse {
            correlation_id: fields.number(),
            code: fields.code(),
        },
        0x800f => Frame::MetadataResponse {
            correlation_id: fields.number(),
            brokers: fields.list(),
            streams: fields.list(),
        },
        0x8011 => Frame::PeerPropertiesResponse {
            correlation_id: fields.number(),
            code: fields.code(),
            properties: fields.list(),
        },
        0x8012 => Frame::SaslHandshakeResponse {
            correlation_id: fields.number(),
            code: fields.code(),
            mechanisms: fields.list(),
        },
        0x8013 => Frame::SaslAuthenticateResponse {
            correlation_id: fields.number(),
            code: fields.code(),
            opaque: fields.nullable(),
        },
        0x8014 => Frame::TuneResponse {
            frame_max: fields.number(),
            heartbeat: fields.number(),
        },
        0x8015 => Frame::OpenResponse {
            correlation_id: fields.number(),
            code: fields.code(),
            properties: fields.list(),
        },
        0x8016 => Frame::CloseResponse {
            correlation_id: fields.number(),
            code: fields.code(),
        },
        _ => Frame::Heartbeat,
    }
}

// The keys from 8018 to 801e.
pub fn extensions(key: u64, slots: &[u64]) -> Frame
    ensures { 0x8018 ≤ key → fields_of result ≡ typed_fields key 1 slots.now }
{
    let mut fields = Taker::content(slots);
    match key {
        0x8018 => Frame::RouteResponse {
            correlation_id: fields.number(),
            code: fields.code(),
            streams: fields.list(),
        },
        0x8019 => Frame::PartitionsResponse {
            correlation_id: fields.number(),
            code: fields.code(),
            streams: fields.list(),
        },
        0x801a => Frame::ConsumerUpdateResponse {
            correlation_id: fields.number(),
            code: fields.code(),
            offset: fields.offset(),
        },
        0x801b => Frame::ExchangeCommandVersionsResponse {
            correlation_id: fields.number(),
            code: fields.code(),
            commands: fields.list(),
        },
        0x801c => Frame::StreamStatsResponse {
            correlation_id: fields.number(),
            code: fields.code(),
            statistics: fields.list(),
        },
        0x801d => Frame::CreateSuperStreamResponse {
            correlation_id: fields.number(),
            code: fields.code(),
        },
        0x801e => Frame::DeleteSuperStreamResponse {
            correlation_id: fields.number(),
            code: fields.code(),
        },
        _ => Frame::Heartbeat,
    }
}
