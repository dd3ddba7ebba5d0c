// The typed frame of slots, by its version and its key.
#![tactic(auto)]

ghost use Rattle.std.specs.Prelude.{◌≡◌};
ghost use Rattle.protocol.specs.Frames.{fields_of};
ghost use Rattle.slot_taker.specs.Typed.{typed_fields, typed_frame};

use protocol::Frame;
use slot_taker::Taker;

// Where key and version are not listed, a Heartbeat. No frame that is read has such.
pub fn frame_of(slots: &[u64; 24]) -> Frame
    ensures { fields_of result ≡ typed_frame slots.now }
{
    let key = slots[0];
    match slots[1] {
        1 => first_version(key, slots),
        2 => second_version(key, slots),
        _ => Frame::Heartbeat,
    }
}

fn first_version(key: u64, slots: &[u64]) -> Frame
    ensures { fields_of result ≡ typed_fields key 1 slots.now }
{
    if key < 0x000d {
        return request_frames::publishing_and_consuming(key, slots);
    }
    if key < 0x0018 {
        return request_frames::streams_and_connection(key, slots);
    }
    if key < 0x8000 {
        return request_frames::extensions(key, slots);
    }
    if key < 0x800d {
        return response_frames::publishing_and_consuming(key, slots);
    }
    if key < 0x8018 {
        return response_frames::streams_and_connection(key, slots);
    }
    response_frames::extensions(key, slots)
}

// Only Publish and Deliver have a version 2.
fn second_version(key: u64, slots: &[u64]) -> Frame
    ensures { fields_of result ≡ typed_fields key 2 slots.now }
{
    let mut fields = Taker::content(slots);
    match key {
        0x0002 => Frame::PublishV2 {
            publisher_id: fields.number(),
            messages: fields.list(),
        },
        0x0008 => Frame::DeliverV2 {
            subscription_id: fields.number(),
            committed_chunk_id: fields.number(),
            chunk: fields.chunk(),
        },
        _ => Frame::Heartbeat,
    }
}
