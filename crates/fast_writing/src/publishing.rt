// What publishers send, and what confirms it.
ghost use Rattle.std.specs.Prelude.{◌+◌, ◌≤◌, length};
ghost use Rattle.protocol.specs.Fields.{bytes_at};
ghost use Rattle.rules.specs.Writing.{wrote, write_encoded};
ghost use Rattle.fast_writing.specs.Answer.{WritesAs, write_row_of, listed};

use byte_strings::is_string;
use fields::{is_number, put_string};
use frame_head::{fits, put_head};
use lists::{check_list, put_list};
use number_lists::check_numbers;
use protocol::{Element, Elements, Form, Refusal, plain_list};
use slots::{list_of, place_of};
use wire::Width;

// c u8 R? T
pub fn declare_publisher(
    slots: &[u64; 24],
    src: &[u8],
    limit: u32,
    out: &mut [u8],
) -> Option<Result<u64, Refusal>>
    ensures { WritesAs (write_row_of 0x0001 1 slots.now src.now limit out.old) out.old result out.new }
{
    let correlation_id = slots[2];
    let publisher_id = slots[3];
    let reference = place_of(slots[4], slots[5]);
    let stream = place_of(slots[6], slots[7]);
    if !is_number(Width::Four, correlation_id) {
        return None;
    }
    if !is_number(Width::One, publisher_id) {
        return None;
    }
    if !is_string(src, reference.at, reference.len, Form::Reference) {
        return None;
    }
    if !is_string(src, stream.at, stream.len, Form::Text) {
        return None;
    }
    let size = 13 + reference.len + stream.len;
    if !fits(limit, size, out.len()) {
        return None;
    }
    let next = put_head(out, size, 0x0001, 1);
    let next = wire::put_number(out, next, Width::Four, correlation_id);
    let next = wire::put_number(out, next, Width::One, publisher_id);
    let next = put_string(out, next, src, Form::Reference, reference);
    put_string(out, next, src, Form::Text, stream);
    Some(Ok(size as u64 + 4))
}

// u8 [u64 B]
pub fn publish(
    slots: &[u64; 24],
    src: &[u8],
    limit: u32,
    out: &mut [u8],
) -> Option<Result<u64, Refusal>>
    ensures { WritesAs (write_row_of 0x0002 1 slots.now src.now limit out.old) out.old result out.new }
{
    let publisher_id = slots[2];
    let messages = list_of(slots[3], slots[4], slots[5]);
    if !is_number(Width::One, publisher_id) {
        return None;
    }
    let refused = check_list(src, plain_list(Element::Message), messages).is_err();
    if refused {
        return None;
    }
    put_listed(0x0002, publisher_id, messages, src, limit, out)
}

// u8 [u64]
pub fn publish_confirm(
    slots: &[u64; 24],
    src: &[u8],
    limit: u32,
    out: &mut [u8],
) -> Option<Result<u64, Refusal>>
    ensures { WritesAs (write_row_of 0x0003 1 slots.now src.now limit out.old) out.old result out.new }
{
    let publisher_id = slots[2];
    let publishing_ids = list_of(slots[3], slots[4], slots[5]);
    if !is_number(Width::One, publisher_id) {
        return None;
    }
    if check_numbers(src, Width::Eight, publishing_ids).is_err() {
        return None;
    }
    put_listed(0x0003, publisher_id, publishing_ids, src, limit, out)
}

// A publisher's id and a list, whose checks have passed.
fn put_listed(
    key: u64,
    publisher_id: u64,
    list: Elements,
    src: &[u8],
    limit: u32,
    out: &mut [u8],
) -> Option<Result<u64, Refusal>>
    requires { list.place.at + list.place.len ≤ length src.now }
    ensures { WritesAs (write_encoded key 1 (wrote (listed publisher_id list.count (bytes_at src.now list.place))) limit out.old) out.old result out.new }
{
    let size = 9 + list.place.len;
    if !fits(limit, size, out.len()) {
        return None;
    }
    let next = put_head(out, size, key, 1);
    let next = wire::put_number(out, next, Width::One, publisher_id);
    put_list(out, next, src, list);
    Some(Ok(size as u64 + 4))
}
