// Frames read, written and read again.
ghost use Rattle.std.specs.Prelude.{◌≡◌, ◌<◌, ◌≤◌, length, IfSome};
ghost use Rattle.protocol.specs.Frames.{fields_of};
ghost use Rattle.rules.specs.Reading.{read_frame};
ghost use Rattle.test_round_trips.specs.Trip.{alike, is_frame, length_if, written_back, back};

use protocol::Frame;

// As far as frames come back as they were.
pub fn walk(s: &[u8]) {
    let mut at: usize = 0;
    let mut frames: u64 = 0;
    while let Some(len) = trip(&s[at..]) {
        at += len;
        frames += 1;
    }
    test_text::decimal(frames);
    test_text::decimal(at as u64);
    test_text::decimal((s.len() - at) as u64);
}

// The length of the frame at the start of s, if it comes back as it was.
fn trip(s: &[u8]) -> Option<usize>
    ensures value { result ≡ back s.now (read_frame s.now 0) }
    ensures within { IfSome result (λ len. (0 < len) × (len ≤ length s.now)) }
{
    let frame = typed_frames::read(s, 0).ok()?;
    written(s, frame)
}

// The length of a frame whose places are in s, if it is written as the bytes at the start of s and they are read as a
// frame.
#[tactic(auto, unfolding(crate::specs::Trip::space))]
fn written(s: &[u8], frame: Frame) -> Option<usize>
    ensures value { result ≡ written_back s.now (fields_of frame) }
    ensures within { IfSome result (λ len. (0 < len) × (len ≤ length s.now)) }
{
    let mut space = [0u8; 65536];
    let n = typed_frames::write(frame, s, 0, &mut space).ok()?;
    compared(s, &space, n as usize)
}

// len, if the first len bytes of both are the same and are read as a frame.
fn compared(s: &[u8], out: &[u8], len: usize) -> Option<usize>
    ensures value { result ≡ length_if len s.now out.now }
    ensures within { IfSome result (λ len. (0 < len) × (len ≤ length s.now)) }
{
    if alike(s, out, len) && is_frame(&out[..len]) {
        Some(len)
    } else {
        None
    }
}

// Both have len bytes, and their first len bytes are the same.
fn alike(s: &[u8], out: &[u8], len: usize) -> bool
    ensures { result ≡ alike len s.now out.now }
{
    if s.len() < len || out.len() < len {
        return false;
    }
    s[..len] == out[..len]
}

fn is_frame(s: &[u8]) -> bool
    ensures { result ≡ is_frame (read_frame s.now 0) }
{
    typed_frames::read(s, 0).is_ok()
}
