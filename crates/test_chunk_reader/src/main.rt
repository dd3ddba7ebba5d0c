// Asks a chunk reader five times over a chunk, and over the same chunk with one thing changed, and prints what it says:
// the size of a message, "done", or "refused" and the number. The file `stdout` has what a reader written in Python
// from the paper says of the same bytes.
#![tactic(auto)]

ghost use Rattle.std.specs.Prelude.{◌≡◌, ◌<◌, set};

use chunk_reader::Found;
use test_text::{decimal, line, word};

// A chunk of type 0 with three messages, of 5, 0 and 2 bytes.
fn main() {
    let s =
        b"\x50\0\0\x03\0\0\0\x03\0\0\x01\x8d\x9e\x4f\x12\x34\0\0\0\0\0\0\0\x01\0\0\0\0\0\0\0\x2a\xde\xad\xbe\xef\0\0\0\x13\0\0\0\0\0\0\0\0\0\0\0\x05hello\0\0\0\0\0\0\0\x02hi";
    asked(s);
    changed(s, 1, 1);
    changed(s, 1, 2);
    changed(s, 1, 3);
    changed(s, 1, 0xff);
    changed(s, 3, 2);
    changed(s, 7, 4);
    changed(s, 39, 18);
    changed(s, 39, 20);
    changed(s, 48, 0x80);
    changed(s, 51, 4);
    changed(s, 51, 6);
    changed(s, 64, 1);
    cut(s, 66);
    cut(s, 48);
    cut(s, 47);
    cut(s, 0);
}

fn changed(s: &[u8; 67], at: usize, byte: u8)
    requires { at < 67 }
{
    let chunk = with_byte(s, at, byte);
    asked(&chunk);
}

// The chunk with another byte at a place.
fn with_byte(s: &[u8; 67], at: usize, byte: u8) -> [u8; 67]
    requires { at < 67 }
    ensures { result ≡ set s.now at byte }
{
    let mut chunk = *s;
    chunk[at] = byte;
    chunk
}

fn cut(s: &[u8], len: usize) {
    if len <= s.len() {
        asked(&s[0..len]);
    }
}

fn asked(chunk: &[u8]) {
    word(b"chunk");
    for k in 0..5 {
        said(chunk_reader::nth(chunk, k));
    }
    line();
}

fn said(found: Found) {
    match found {
        Found::Ready => word(b" ready"),
        Found::Message(place) => decimal(place.len as u64),
        Found::Done => word(b" done"),
        Found::Refused(number) => {
            word(b" refused");
            decimal(number as u64)
        }
    };
}
