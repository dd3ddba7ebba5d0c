// Reading a frame into its slots.
ghost use Rattle.std.specs.Prelude.{◌≡◌, ◌+◌, ◌<◌};
ghost use Rattle.protocol.specs.Decision.{decide};
ghost use Rattle.protocol.specs.Layouts.{row_from};
ghost use Rattle.protocol.specs.Refusals.{number_of};
ghost use Rattle.protocol.specs.Table.{row_of};
ghost use Rattle.rules.specs.Answers.{reading_refusal};
ghost use Rattle.rules.specs.Reading.{read_frame, read_decided, read_layout};
ghost use Rattle.slots.specs.Flat.{slots_after};
ghost use Rattle.frame_reading.specs.Answer.{Refused, told, said, refusal_of};

use byte_strings::Fault;
use frame_head::{head_of, over_limit};
use protocol::{FieldKind, Refusal, layout_of};

// Why a frame is not read.
#[derive(Clone, Copy, Debug, PartialEq, Eq)]
pub enum ReadError {
    // Refusal 1: how many bytes the frame needs.
    Short { needed: u64 },
    // Another refusal. The place of the field at fault counts from the frame's first byte.
    Refused(Fault),
}

// The frame at the start of the bytes, under a frame limit; 0 is no limit. Only a frame that is read changes the slots. Four
// bytes present (1), Size above the limit (2), below 4 (3), whole frame present (1), then what key and version say.
pub fn read(bytes: &[u8], limit: u32, slots: &mut [u64; 24]) -> Result<(), ReadError>
    ensures value { said result ≡ told (read_frame bytes.now limit) }
    ensures slots_after { slots.new ≡ slots_after slots.old (read_frame bytes.now limit) }
    ensures refusal { refusal_of result ≡ reading_refusal (read_frame bytes.now limit) }
{
    if bytes.len() < 4 {
        return Err(ReadError::Short { needed: 4 });
    }
    let size = head_of(bytes).size as u64;
    if over_limit(limit, size) {
        return refused(Refusal::FrameTooLarge, 0);
    }
    if size < 4 {
        return refused(Refusal::FrameTooSmall, 0);
    }
    let end = size as usize + 4;
    if bytes.len() < end {
        return Err(ReadError::Short { needed: size + 4 });
    }
    // Of a part that is as long as the frame the compiler knows that the head is there.
    let head = head_of(&bytes[..end]);
    read_whole(&bytes[8..end], head.key, head.version, slots)
}

// What the fast reader leaves, the reader that knows every layout and every refusal reads.
fn read_whole(s: &[u8], key: u16, version: u16, slots: &mut [u64; 24]) -> Result<(), ReadError>
    ensures value { said result ≡ told (read_decided (decide key version) s.now) }
    ensures slots_after { slots.new ≡ slots_after slots.old (read_decided (decide key version) s.now) }
{
    match fast_reading::read(s, key as u64, version as u64, slots) {
        Some(Ok(())) => Ok(()),
        Some(Err(fault)) => refused(fault.refusal, 8 + fault.at),
        None => read_decided(s, key, version, slots),
    }
}

// Key (4), version (5), then the content.
fn read_decided(s: &[u8], key: u16, version: u16, slots: &mut [u64; 24]) -> Result<(), ReadError>
    ensures value { said result ≡ told (read_decided (decide key version) s.now) }
    ensures slots_after { slots.new ≡ slots_after slots.old (read_decided (decide key version) s.now) }
{
    match layout_of(key, version) {
        Ok(fields) => read_content(s, key, version, fields, slots),
        Err(refusal) => match refusal {
            Refusal::UnknownKey => refused(refusal, 4),
            _ => refused(refusal, 6),
        },
    }
}

// The fields, then 11 if bytes are left.
fn read_content(
    s: &[u8],
    key: u16,
    version: u16,
    fields: &[FieldKind],
    slots: &mut [u64; 24],
) -> Result<(), ReadError>
    requires { row_from fields.now ≡ row_of key version }
    ensures value { said result ≡ told (read_layout key version s.now) }
    ensures slots_after { slots.new ≡ slots_after slots.old (read_layout key version s.now) }
{
    match slot_reading::read_content(s, key, version, fields, slots) {
        Ok(_) => Ok(()),
        Err(fault) => refused(fault.refusal, 8 + fault.at),
    }
}

fn refused(refusal: Refusal, at: usize) -> Result<(), ReadError>
    ensures { said result ≡ Refused (number_of refusal) at }
{
    Err(ReadError::Refused(Fault { refusal, at }))
}
