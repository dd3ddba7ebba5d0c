// What reading answers to one vector.
ghost use Rattle.std.specs.Prelude.{◌≤◌, ◌≡◌, length};
ghost use Rattle.rules.specs.Exactness.{frame_length};
ghost use Rattle.rules.specs.Reading.{read_frame};
ghost use Rattle.test_frames.specs.Answers.{used, needs, cuts_needing};

use frame_reading::ReadError;

pub fn run(name: &[u8], limit: u32, bytes: &[u8]) {
    test_text::word(name);
    let mut slots = [0u64; 24];
    match frame_reading::read(bytes, limit, &mut slots) {
        Ok(()) => {
            accepted(bytes, slots);
            cuts(name, limit, bytes);
        }
        Err(ReadError::Short { needed }) => short(needed),
        Err(ReadError::Refused(fault)) => refused(fault.refusal.number(), fault.at),
    }
}

// With one byte more behind the vector: printed if that is a frame. A byte behind a frame plays no part.
pub fn longer(name: &[u8], limit: u32, bytes: &[u8]) {
    let mut slots = [0u64; 24];
    if let Ok(()) = frame_reading::read(bytes, limit, &mut slots) {
        test_text::word(name);
        test_text::word(b" longer");
        accepted(bytes, slots);
    }
}

// The frame's length, and its slots.
fn accepted(bytes: &[u8], slots: [u64; 24])
    requires { frame_length bytes.now ≤ length bytes.now }
{
    test_text::word(b" frame");
    test_text::decimal(total(bytes));
    test_text::hex(slots[0], 4);
    numbers(&slots[1..24]);
    test_text::line();
}

fn numbers(slots: &[u64]) {
    for slot in &slots[..used(slots)] {
        test_text::decimal(*slot);
    }
}

// How many there are without the zeros after the last one that is not 0.
fn used(slots: &[u64]) -> usize
    ensures value { result ≡ used slots.now }
    ensures upper_bound { result ≤ length slots.now }
{
    for n in (0..slots.len()).rev() {
        if slots[n] != 0 {
            return n + 1;
        }
    }
    0
}

fn short(needed: u64) {
    test_text::word(b" short");
    test_text::decimal(needed);
    test_text::line();
}

fn refused(number: u8, place: usize) {
    test_text::word(b" refused");
    test_text::decimal(number as u64);
    test_text::word(b" at");
    test_text::decimal(place as u64);
    test_text::line();
}

// The length that a frame's Size gives.
fn total(frame: &[u8]) -> u64
    requires { 4 ≤ length frame.now }
    ensures { result ≡ frame_length frame.now }
{
    let head = frame_head::head_of(frame);
    head.size as u64 + 4
}

// How many of the cuts below 4 bytes need 4, and how many of all cuts need the whole frame.
fn cuts(name: &[u8], limit: u32, bytes: &[u8])
    requires { frame_length bytes.now ≤ length bytes.now }
{
    let whole = total(bytes);
    let end = whole as usize;
    test_text::word(name);
    test_text::word(b" cuts");
    test_text::decimal(needing(limit, &bytes[0..4], 4));
    test_text::decimal(needing(limit, &bytes[0..end], whole));
    test_text::line();
}

// How many of the frame's cuts are short and need n bytes.
fn needing(limit: u32, frame: &[u8], n: u64) -> u64
    ensures { result ≡ cuts_needing limit frame.now n (length frame.now) }
{
    let mut count: u64 = 0;
    for k in 0..frame.len() {
        count += short_of(limit, &frame[0..k], n);
    }
    count
}

// 1 if the cut is short and needs n bytes, else 0.
fn short_of(limit: u32, cut: &[u8], n: u64) -> u64
    ensures value { result ≡ needs n (read_frame cut.now limit) }
    ensures upper_bound { result ≤ 1 }
{
    let mut slots = [0u64; 24];
    match frame_reading::read(cut, limit, &mut slots) {
        Err(ReadError::Short { needed }) => u64::from(needed == n),
        Ok(()) | Err(ReadError::Refused(_)) => 0,
    }
}
