// Subscribe, Credit and Deliver.
ghost use Rattle.std.specs.Prelude.{◌≡◌};
ghost use Rattle.protocol.specs.Decision.{decide};
ghost use Rattle.rules.specs.Reading.{read_decided, read_layout};
ghost use Rattle.fast_reading.specs.Answer.{Answers, ReadsAs};
ghost use Rattle.fast_reading.specs.Chunk.{chunk_at};

use crate::filled::filled;
use crate::number;
use byte_strings::{Fault, after_text};
use chunks::chunk_end;
use lists::list_end;
use protocol::{Element, plain_list};
use slots::{widened8, widened32};
use wire::Width;

// u8 u16
pub fn credit(s: &[u8], slots: &mut [u64; 24]) -> Option<()>
    ensures { ReadsAs (read_layout 0x0009 1 s.now) slots.old result slots.new }
{
    if s.len() != 3 {
        return None;
    }
    let subscription_id = number(s, 0, Width::One);
    let credit = number(s, 1, Width::Two);
    *slots = filled([0x0009, 1, subscription_id, credit]);
    Some(())
}

// c u8 T spec u16 [T T]; every offset specification but type 4 is left to the general reader.
pub fn subscribe(s: &[u8], slots: &mut [u64; 24]) -> Option<()>
    ensures { ReadsAs (read_layout 0x0007 1 s.now) slots.old result slots.new }
{
    if s.len() < 5 {
        return None;
    }
    let correlation_id = number(s, 0, Width::Four);
    let subscription_id = number(s, 4, Width::One);
    let offset = after_text(s, 5)?;
    if s.len() - offset < 16 {
        return None;
    }
    let kind = number(s, offset, Width::Two);
    if kind != 4 {
        return None;
    }
    let value = number(s, offset + 2, Width::Eight);
    let credit = number(s, offset + 10, Width::Two);
    let count = number(s, offset + 12, Width::Four);
    let properties = offset + 16;
    let end = list_end(s, offset + 12, plain_list(Element::Property)).ok()?;
    if end != s.len() {
        return None;
    }
    let stream_len = offset as u64 - 7;
    let len = (s.len() - properties) as u64;
    *slots = filled([
        0x0007,
        1,
        correlation_id,
        subscription_id,
        15,
        stream_len,
        4,
        value,
        credit,
        count,
        properties as u64 + 8,
        len,
    ]);
    Some(())
}

// u8 chunk, and u8 u64 chunk in version 2. The chunk's refusal is the content's. The room of
// the chunk's header is tested here, for `chunk_end` and for every number; a content without it is left to the general reader.
pub fn deliver(s: &[u8], version: u64, slots: &mut [u64; 24]) -> Option<Result<(), Fault>>
    ensures { Answers (read_decided (decide 0x0008 version) s.now) slots.old result slots.new }
{
    let at = chunk_place(version)?;
    if s.len() < at + 48 {
        return None;
    }
    if let Err(fault) = chunk_end(s, at) {
        return Some(Err(fault));
    }
    let subscription_id = number(s, 0, Width::One);
    let magic = widened8(number(s, at, Width::One) as u8);
    let kind = widened8(number(s, at + 1, Width::One) as u8);
    let entries = number(s, at + 2, Width::Two);
    let records = number(s, at + 4, Width::Four);
    let timestamp = number(s, at + 8, Width::Eight);
    let epoch = number(s, at + 16, Width::Eight);
    let first_offset = number(s, at + 24, Width::Eight);
    let checksum = widened32(number(s, at + 32, Width::Four) as u32);
    let data_length = number(s, at + 36, Width::Four);
    let trailer_length = number(s, at + 40, Width::Four);
    let bloom_size = number(s, at + 44, Width::One);
    let reserved = number(s, at + 45, Width::Three);
    if version == 1 {
        *slots = [
            0x0008,
            1,
            subscription_id,
            magic,
            kind,
            entries,
            records,
            timestamp,
            epoch,
            first_offset,
            checksum,
            data_length,
            trailer_length,
            bloom_size,
            reserved,
            57,
            data_length,
            0,
            0,
            0,
            0,
            0,
            0,
            0,
        ];
        return Some(Ok(()));
    }
    let committed_chunk_id = number(s, 1, Width::Eight);
    *slots = [
        0x0008,
        2,
        subscription_id,
        committed_chunk_id,
        magic,
        kind,
        entries,
        records,
        timestamp,
        epoch,
        first_offset,
        checksum,
        data_length,
        trailer_length,
        bloom_size,
        reserved,
        65,
        data_length,
        0,
        0,
        0,
        0,
        0,
        0,
    ];
    Some(Ok(()))
}

// Where the chunk of a Deliver begins: after 1 byte in version 1, after 9 in version 2; no other version has one. A product takes
// less time than two cases.
fn chunk_place(version: u64) -> Option<usize>
    ensures { result ≡ chunk_at version }
{
    if version == 0 || 2 < version {
        return None;
    }
    Some((8 * version - 7) as usize)
}
