// Subscribe, Credit and Deliver.
ghost use Rattle.std.specs.Prelude.{[]};
ghost use Rattle.fast_writing.specs.Answer.{WritesAs, write_row_of};

use byte_strings::is_string;
use fields::{is_number, put_string};
use frame_head::{fits, put_head};
use lists::{check_list, put_list};
use protocol::{Element, Form, Refusal, plain_list};
use slot_writing::{check_chunk, put_chunk};
use slots::{list_of, place_of};
use wire::Width;

// c u8 T spec u16 [T T]; another offset specification than an offset is left to the general writer.
pub fn subscribe(
    slots: &[u64; 24],
    src: &[u8],
    limit: u32,
    out: &mut [u8],
) -> Option<Result<u64, Refusal>>
    ensures { WritesAs (write_row_of 0x0007 1 slots.now src.now limit out.old) out.old result out.new }
{
    let correlation_id = slots[2];
    let subscription_id = slots[3];
    let stream = place_of(slots[4], slots[5]);
    let value = slots[7];
    let credit = slots[8];
    let properties = list_of(slots[9], slots[10], slots[11]);
    if slots[6] != 4 {
        return None;
    }
    if !is_number(Width::Four, correlation_id) {
        return None;
    }
    if !is_number(Width::One, subscription_id) {
        return None;
    }
    if !is_string(src, stream.at, stream.len, Form::Text) {
        return None;
    }
    if !is_number(Width::Two, credit) {
        return None;
    }
    if check_list(src, plain_list(Element::Property), properties).is_err() {
        return None;
    }
    let size = 27 + stream.len + properties.place.len;
    if !fits(limit, size, out.len()) {
        return None;
    }
    let next = put_head(out, size, 0x0007, 1);
    let next = wire::put_number(out, next, Width::Four, correlation_id);
    let next = wire::put_number(out, next, Width::One, subscription_id);
    let next = put_string(out, next, src, Form::Text, stream);
    let next = wire::put_number(out, next, Width::Two, 4);
    let next = wire::put_number(out, next, Width::Eight, value);
    let next = wire::put_number(out, next, Width::Two, credit);
    put_list(out, next, src, properties);
    Some(Ok(size as u64 + 4))
}

// u8 u16
pub fn credit(slots: &[u64; 24], limit: u32, out: &mut [u8]) -> Option<Result<u64, Refusal>>
    ensures { WritesAs (write_row_of 0x0009 1 slots.now [] limit out.old) out.old result out.new }
{
    let subscription_id = slots[2];
    let credit = slots[3];
    if !is_number(Width::One, subscription_id) {
        return None;
    }
    if !is_number(Width::Two, credit) {
        return None;
    }
    if !fits(limit, 7, out.len()) {
        return None;
    }
    let next = put_head(out, 7, 0x0009, 1);
    let next = wire::put_number(out, next, Width::One, subscription_id);
    wire::put_number(out, next, Width::Two, credit);
    Some(Ok(11))
}

// u8 chunk
pub fn deliver(
    slots: &[u64; 24],
    src: &[u8],
    limit: u32,
    out: &mut [u8],
) -> Option<Result<u64, Refusal>>
    ensures { WritesAs (write_row_of 0x0008 1 slots.now src.now limit out.old) out.old result out.new }
{
    let subscription_id = slots[2];
    let chunk = &slots[3..];
    let len = slots[16] as usize;
    if !is_number(Width::One, subscription_id) {
        return None;
    }
    if let Err(refusal) = check_chunk(src, chunk) {
        return Some(Err(refusal));
    }
    let size = 53 + len;
    if !fits(limit, size, out.len()) {
        return None;
    }
    let next = put_head(out, size, 0x0008, 1);
    let next = wire::put_number(out, next, Width::One, subscription_id);
    put_chunk(out, next, src, chunk);
    Some(Ok(size as u64 + 4))
}
