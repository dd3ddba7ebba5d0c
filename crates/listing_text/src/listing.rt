// A capture listed through a window, into a lent buffer.
ghost use Rattle.std.specs.Prelude.{◌≡◌, cond, [], ◌+◌, ◌≤◌, length, drop};
ghost use Rattle.captures.specs.Following.{following};
ghost use Rattle.listing_lines.specs.Line.{frame_line, closing_line};
ghost use Rattle.listing_lines.specs.Printed.{Prints};
ghost use Rattle.listing_text.specs.Listing.{limit};
ghost use Rattle.listing_text.specs.Steps.{greatest, too_long, begun, halted, advanced, Steps, Lists, Stops};
ghost use Rattle.listing_text.specs.declared.listing.State.TheVariants.{Done, TooLong};

use captures::{Next, next_frame};
use listing_lines::Text;

// The frame limit of a listing, and the bytes of the longest frame within it.
const LIMIT: u32 = 65532;

pub const LONGEST: usize = 65536;

// The longest that one step prints is below this many bytes.
const ROOM: usize = 128;

#[derive(Clone, Copy)]
pub enum State {
    // More may be listed, and there is no room for it.
    Going,
    // More bytes are needed.
    More,
    // The closing line is written.
    Done,
    // The offset or the count of frames would pass 2^64 - 1.
    TooLong,
}

// How far a listing is.
#[derive(Clone, Copy)]
pub struct Progress {
    // The place in the window behind the last frame listed, and the same place in the capture.
    pub from: usize,
    pub offset: u64,
    pub frames: u64,
    // How many bytes of text there are.
    pub written: usize,
    pub state: State,
}

impl Progress {
    // Prints what comes next.
    fn step(self, window: &[u8], ended: bool, out: &mut [u8]) -> Self
        requires { self.from ≤ length window.now }
        ensures { Steps (following (drop self.from window.now) ended limit) self out.old out.new result }
    {
        let mut text = Text {
            out,
            len: self.written,
        };
        let mut slots = [0u64; 24];
        match next_frame(&window[self.from..], ended, LIMIT, &mut slots) {
            Next::Frame { length } => self.frame_step(
                &mut text,
                length,
                slots[0] as u16,
                slots[1] as u16,
            ),
            Next::Whole => self.closed(&mut text, b" whole\n"),
            Next::Cut { left, needed } => {
                text.cut_line(self.offset, left, needed);
                self.closed(&mut text, b" cut\n")
            }
            Next::Refused(refusal) => {
                text.refused_line(self.offset, refusal.number());
                self.closed(&mut text, b" refused\n")
            }
            Next::More => self.halted(text.len, State::More),
        }
    }

    fn frame_step(self, text: &mut Text, total: u64, key: u16, version: u16) -> Self
        requires { self.from + total ≤ greatest }
        ensures prints { Prints (cond (too_long self.offset self.frames total) [] (frame_line self.offset total key version)) text.old text.new }
        ensures value { result ≡ cond (too_long self.offset self.frames total) (halted self text.new.len TooLong) (advanced self total text.new.len) }
    {
        if too_long(self.offset, self.frames, total) {
            return self.halted(text.len, State::TooLong);
        }
        text.frame_line(self.offset, total, key, version);
        Progress {
            from: self.from + total as usize,
            offset: self.offset + total,
            frames: self.frames + 1,
            written: text.len,
            state: State::Going,
        }
    }

    // The closing line.
    fn closed(self, text: &mut Text, ending: &[u8]) -> Self
        ensures prints { Prints (closing_line self.frames ending.now) text.old text.new }
        ensures value { result ≡ halted self text.new.len Done }
    {
        text.closing_line(self.frames, ending);
        self.halted(text.len, State::Done)
    }

    // No further in the capture, with so much text.
    fn halted(self, written: usize, state: State) -> Self
        ensures { result ≡ halted self written state }
    {
        Progress {
            written,
            state,
            ..self
        }
    }
}

// Lists the window's frames, as many as are whole and as out has room for. The window starts at an offset of the capture,
// after so many frames; nothing follows it if the capture has ended.
pub fn list(window: &[u8], ended: bool, offset: u64, frames: u64, out: &mut [u8]) -> Progress
    ensures lists { Lists window.now ended (begun offset frames) out.old out.new result }
    ensures stops { Stops window.now ended (length out.old) result }
{
    let mut p = Progress {
        from: 0,
        offset,
        frames,
        written: 0,
        state: State::Going,
    };
    while p.written + ROOM <= out.len() {
        p = p.step(window, ended, out);
        let State::Going = p.state else {
            return p;
        };
    }
    p
}

// The offset behind such a frame, or the count of frames with it, would pass 2^64 - 1.
fn too_long(offset: u64, frames: u64, total: u64) -> bool
    ensures { result ≡ too_long offset frames total }
{
    u64::MAX - offset < total || frames == u64::MAX
}
