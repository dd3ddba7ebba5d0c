// A frame's slots: key, version, then the fields of its content in wire order.
#![tactic(auto)]

ghost use Rattle.std.specs.Prelude.{◌≡◌};
ghost use Rattle.protocol.specs.Frames.{fields_of};
ghost use Rattle.slots.specs.Flat.{flat_frame};
ghost use Rattle.slots.specs.Inverse.{SignedFrame};

use protocol::Frame;
use slot_builder::Builder;

pub fn frame_slots(frame: Frame) -> [u64; 24]
    ensures value { result ≡ flat_frame (fields_of frame) }
    ensures signed_frame { SignedFrame (fields_of frame) }
{
    filled(frame).slots
}

// An arm lists its fields as its row in the table does.
#[tactic(auto, using(slot_builder::proofs::Built::appended_started), unfolding(slot_builder::specs::Built::started, slots::specs::Flat::flat_frame, protocol::specs::Table::table, protocol::specs::Table::row_in))]
fn filled(frame: Frame) -> Builder
    ensures slots_value { result.slots ≡ flat_frame (fields_of frame) }
    ensures signed_frame { SignedFrame (fields_of frame) }
{
    match frame {
        Frame::DeclarePublisher {
            correlation_id,
            publisher_id,
            reference,
            stream,
        } => Builder::request(0x0001, correlation_id)
            .number(publisher_id as u64)
            .nullable(reference)
            .place(stream),
        Frame::Publish {
            publisher_id,
            messages,
        } => Builder::headed(0x0002, 1)
            .number(publisher_id as u64)
            .list(messages),
        Frame::PublishV2 {
            publisher_id,
            messages,
        } => Builder::headed(0x0002, 2)
            .number(publisher_id as u64)
            .list(messages),
        Frame::PublishConfirm {
            publisher_id,
            publishing_ids,
        } => Builder::headed(0x0003, 1)
            .number(publisher_id as u64)
            .list(publishing_ids),
        Frame::PublishError {
            publisher_id,
            errors,
        } => Builder::headed(0x0004, 1)
            .number(publisher_id as u64)
            .list(errors),
        Frame::QueryPublisher {
            correlation_id,
            reference,
            stream,
        } => Builder::request(0x0005, correlation_id)
            .place(reference)
            .place(stream),
        Frame::DeletePublisher {
            correlation_id,
            publisher_id,
        } => Builder::request(0x0006, correlation_id).number(publisher_id as u64),
        Frame::Subscribe {
            correlation_id,
            subscription_id,
            stream,
            offset,
            credit,
            properties,
        } => Builder::request(0x0007, correlation_id)
            .number(subscription_id as u64)
            .place(stream)
            .offset(offset)
            .number(credit as u64)
            .list(properties),
        Frame::Deliver {
            subscription_id,
            chunk,
        } => Builder::headed(0x0008, 1)
            .number(subscription_id as u64)
            .chunk(chunk),
        Frame::DeliverV2 {
            subscription_id,
            committed_chunk_id,
            chunk,
        } => Builder::headed(0x0008, 2)
            .number(subscription_id as u64)
            .number(committed_chunk_id)
            .chunk(chunk),
        Frame::Credit {
            subscription_id,
            credit,
        } => Builder::headed(0x0009, 1)
            .number(subscription_id as u64)
            .number(credit as u64),
        Frame::StoreOffset {
            reference,
            stream,
            offset,
        } => Builder::headed(0x000a, 1)
            .place(reference)
            .place(stream)
            .number(offset),
        Frame::QueryOffset {
            correlation_id,
            reference,
            stream,
        } => Builder::request(0x000b, correlation_id)
            .place(reference)
            .place(stream),
        Frame::Unsubscribe {
            correlation_id,
            subscription_id,
        } => Builder::request(0x000c, correlation_id).number(subscription_id as u64),
        Frame::Create {
            correlation_id,
            stream,
            arguments,
        } => Builder::request(0x000d, correlation_id)
            .place(stream)
            .list(arguments),
        Frame::Delete {
            correlation_id,
            stream,
        } => Builder::request(0x000e, correlation_id).place(stream),
        Frame::Metadata {
            correlation_id,
            streams,
        } => Builder::request(0x000f, correlation_id).list(streams),
        Frame::MetadataUpdate { code, stream } => Builder::headed(0x0010, 1)
            .number(code as u64)
            .place(stream),
        Frame::PeerProperties {
            correlation_id,
            properties,
        } => Builder::request(0x0011, correlation_id).list(properties),
        Frame::SaslHandshake { correlation_id } => Builder::request(0x0012, correlation_id),
        Frame::SaslAuthenticate {
            correlation_id,
            mechanism,
            opaque,
        } => Builder::request(0x0013, correlation_id)
            .place(mechanism)
            .nullable(opaque),
        Frame::Tune {
            frame_max,
            heartbeat,
        } => Builder::headed(0x0014, 1)
            .number(frame_max as u64)
            .number(heartbeat as u64),
        Frame::Open {
            correlation_id,
            virtual_host,
        } => Builder::request(0x0015, correlation_id).place(virtual_host),
        Frame::Close {
            correlation_id,
            closing_code,
            closing_reason,
        } => Builder::request(0x0016, correlation_id)
            .number(closing_code as u64)
            .place(closing_reason),
        Frame::Heartbeat => Builder::headed(0x0017, 1),
        Frame::Route {
            correlation_id,
            routing_key,
            super_stream,
        } => Builder::request(0x0018, correlation_id)
            .place(routing_key)
            .place(super_stream),
        Frame::Partitions {
            correlation_id,
            super_stream,
        } => Builder::request(0x0019, correlation_id).place(super_stream),
        Frame::ConsumerUpdate {
            correlation_id,
            subscription_id,
            active,
        } => Builder::request(0x001a, correlation_id)
            .number(subscription_id as u64)
            .number(active as u64),
        Frame::ExchangeCommandVersions {
            correlation_id,
            commands,
        } => Builder::request(0x001b, correlation_id).list(commands),
        Frame::StreamStats {
            correlation_id,
            stream,
        } => Builder::request(0x001c, correlation_id).place(stream),
        Frame::CreateSuperStream {
            correlation_id,
            name,
            partitions,
            binding_keys,
            arguments,
        } => Builder::request(0x001d, correlation_id)
            .place(name)
            .list(partitions)
            .list(binding_keys)
            .list(arguments),
        Frame::DeleteSuperStream {
            correlation_id,
            name,
        } => Builder::request(0x001e, correlation_id).place(name),
        Frame::DeclarePublisherResponse {
            correlation_id,
            code,
        } => Builder::response(0x8001, correlation_id, code),
        Frame::QueryPublisherResponse {
            correlation_id,
            code,
            sequence,
        } => Builder::response(0x8005, correlation_id, code).number(sequence),
        Frame::DeletePublisherResponse {
            correlation_id,
            code,
        } => Builder::response(0x8006, correlation_id, code),
        Frame::SubscribeResponse {
            correlation_id,
            code,
        } => Builder::response(0x8007, correlation_id, code),
        Frame::CreditResponse {
            code,
            subscription_id,
        } => Builder::headed(0x8009, 1)
            .number(code.number as u64)
            .number(subscription_id as u64),
        Frame::QueryOffsetResponse {
            correlation_id,
            code,
            offset,
        } => Builder::response(0x800b, correlation_id, code).number(offset),
        Frame::UnsubscribeResponse {
            correlation_id,
            code,
        } => Builder::response(0x800c, correlation_id, code),
        Frame::CreateResponse {
            correlation_id,
            code,
        } => Builder::response(0x800d, correlation_id, code),
        Frame::DeleteResponse {
            correlation_id,
            code,
        } => Builder::response(0x800e, correlation_id, code),
        Frame::MetadataResponse {
            correlation_id,
            brokers,
            streams,
        } => Builder::request(0x800f, correlation_id)
            .list(brokers)
            .list(streams),
        Frame::PeerPropertiesResponse {
            correlation_id,
            code,
            properties,
        } => Builder::response(0x8011, correlation_id, code).list(properties),
        Frame::SaslHandshakeResponse {
            correlation_id,
            code,
            mechanisms,
        } => Builder::response(0x8012, correlation_id, code).list(mechanisms),
        Frame::SaslAuthenticateResponse {
            correlation_id,
            code,
            opaque,
        } => Builder::response(0x8013, correlation_id, code).nullable(opaque),
        Frame::TuneResponse {
            frame_max,
            heartbeat,
        } => Builder::headed(0x8014, 1)
            .number(frame_max as u64)
            .number(heartbeat as u64),
        Frame::OpenResponse {
            correlation_id,
            code,
            properties,
        } => Builder::response(0x8015, correlation_id, code).list(properties),
        Frame::CloseResponse {
            correlation_id,
            code,
        } => Builder::response(0x8016, correlation_id, code),
        Frame::RouteResponse {
            correlation_id,
            code,
            streams,
        } => Builder::response(0x8018, correlation_id, code).list(streams),
        Frame::PartitionsResponse {
            correlation_id,
            code,
            streams,
        } => Builder::response(0x8019, correlation_id, code).list(streams),
        Frame::ConsumerUpdateResponse {
            correlation_id,
            code,
            offset,
        } => Builder::response(0x801a, correlation_id, code).offset(offset),
        Frame::ExchangeCommandVersionsResponse {
            correlation_id,
            code,
            commands,
        } => Builder::response(0x801b, correlation_id, code).list(commands),
        Frame::StreamStatsResponse {
            correlation_id,
            code,
            statistics,
        } => Builder::response(0x801c, correlation_id, code).list(statistics),
        Frame::CreateSuperStreamResponse {
            correlation_id,
            code,
        } => Builder::response(0x801d, correlation_id, code),
        Frame::DeleteSuperStreamResponse {
            correlation_id,
            code,
        } => Builder::response(0x801e, correlation_id, code),
    }
}
