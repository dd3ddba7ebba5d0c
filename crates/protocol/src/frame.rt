// The typed frame: one case for each layout (01 "Frame and keys"), its fields in wire order.
use crate::chunk::Chunk;
use crate::offset::OffsetSpecification;
use crate::place::{Elements, Place};
use crate::response_code::ResponseCode;

#[derive(Clone, Copy)]
pub enum Frame {
    DeclarePublisher {
        correlation_id: u32,
        publisher_id: u8,
        reference: Option<Place>,
        stream: Place,
    },
    Publish {
        publisher_id: u8,
        messages: Elements,
    },
    PublishV2 {
        publisher_id: u8,
        messages: Elements,
    },
    PublishConfirm {
        publisher_id: u8,
        publishing_ids: Elements,
    },
    PublishError {
        publisher_id: u8,
        errors: Elements,
    },
    QueryPublisher {
        correlation_id: u32,
        reference: Place,
        stream: Place,
    },
    DeletePublisher {
        correlation_id: u32,
        publisher_id: u8,
    },
    Subscribe {
        correlation_id: u32,
        subscription_id: u8,
        stream: Place,
        offset: OffsetSpecification,
        credit: u16,
        properties: Elements,
    },
    Deliver {
        subscription_id: u8,
        chunk: Chunk,
    },
    DeliverV2 {
        subscription_id: u8,
        committed_chunk_id: u64,
        chunk: Chunk,
    },
    Credit {
        subscription_id: u8,
        credit: u16,
    },
    StoreOffset {
        reference: Place,
        stream: Place,
        offset: u64,
    },
    QueryOffset {
        correlation_id: u32,
        reference: Place,
        stream: Place,
    },
    Unsubscribe {
        correlation_id: u32,
        subscription_id: u8,
    },
    Create {
        correlation_id: u32,
        stream: Place,
        arguments: Elements,
    },
    Delete {
        correlation_id: u32,
        stream: Place,
    },
    Metadata {
        correlation_id: u32,
        streams: Elements,
    },
    MetadataUpdate {
        code: u16,
        stream: Place,
    },
    PeerProperties {
        correlation_id: u32,
        properties: Elements,
    },
    SaslHandshake {
        correlation_id: u32,
    },
    SaslAuthenticate {
        correlation_id: u32,
        mechanism: Place,
        opaque: Option<Place>,
    },
    Tune {
        frame_max: u32,
        heartbeat: u32,
    },
    Open {
        correlation_id: u32,
        virtual_host: Place,
    },
    Close {
        correlation_id: u32,
        closing_code: u16,
        closing_reason: Place,
    },
    Heartbeat,
    Route {
        correlation_id: u32,
        routing_key: Place,
        super_stream: Place,
    },
    Partitions {
        correlation_id: u32,
        super_stream: Place,
    },
    ConsumerUpdate {
        correlation_id: u32,
        subscription_id: u8,
        active: bool,
    },
    ExchangeCommandVersions {
        correlation_id: u32,
        commands: Elements,
    },
    StreamStats {
        correlation_id: u32,
        stream: Place,
    },
    CreateSuperStream {
        correlation_id: u32,
        name: Place,
        partitions: Elements,
        binding_keys: Elements,
        arguments: Elements,
    },
    DeleteSuperStream {
        correlation_id: u32,
        name: Place,
    },
    DeclarePublisherResponse {
        correlation_id: u32,
        code: ResponseCode,
    },
    QueryPublisherResponse {
        correlation_id: u32,
        code: ResponseCode,
        sequence: u64,
    },
    DeletePublisherResponse {
        correlation_id: u32,
        code: ResponseCode,
    },
    SubscribeResponse {
        correlation_id: u32,
        code: ResponseCode,
    },
    CreditResponse {
        code: ResponseCode,
        subscription_id: u8,
    },
    QueryOffsetResponse {
        correlation_id: u32,
        code: ResponseCode,
        offset: u64,
    },
    UnsubscribeResponse {
        correlation_id: u32,
        code: ResponseCode,
    },
    CreateResponse {
        correlation_id: u32,
        code: ResponseCode,
    },
    DeleteResponse {
        correlation_id: u32,
        code: ResponseCode,
    },
    MetadataResponse {
        correlation_id: u32,
        brokers: Elements,
        streams: Elements,
    },
    PeerPropertiesResponse {
        correlation_id: u32,
        code: ResponseCode,
        properties: Elements,
    },
    SaslHandshakeResponse {
        correlation_id: u32,
        code: ResponseCode,
        mechanisms: Elements,
    },
    SaslAuthenticateResponse {
        correlation_id: u32,
        code: ResponseCode,
        opaque: Option<Place>,
    },
    TuneResponse {
        frame_max: u32,
        heartbeat: u32,
    },
    OpenResponse {
        correlation_id: u32,
        code: ResponseCode,
        properties: Elements,
    },
    CloseResponse {
        correlation_id: u32,
        code: ResponseCode,
    },
    RouteResponse {
        correlation_id: u32,
        code: ResponseCode,
        streams: Elements,
    },
    PartitionsResponse {
        correlation_id: u32,
        code: ResponseCode,
        streams: Elements,
    },
    ConsumerUpdateResponse {
        correlation_id: u32,
        code: ResponseCode,
        offset: OffsetSpecification,
    },
    ExchangeCommandVersionsResponse {
        correlation_id: u32,
        code: ResponseCode,
        commands: Elements,
    },
    StreamStatsResponse {
        correlation_id: u32,
        code: ResponseCode,
        statistics: Elements,
    },
    CreateSuperStreamResponse {
        correlation_id: u32,
        code: ResponseCode,
    },
    DeleteSuperStreamResponse {
        correlation_id: u32,
        code: ResponseCode,
    },
}
