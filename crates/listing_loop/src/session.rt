// The capture listed, a read at a time (01 "The listing program").
ghost use Rattle.std.specs.Prelude.{false, List, ◌≡◌, ℕ, Option, IfSome, ◌+◌, ◌≤◌, ◌<◌, length, take, drop};
ghost use Rattle.listing_loop.specs.History.{History, nothing_yet, after_read, after_write};
ghost use Rattle.listing_loop.specs.Reader.{Gives};
ghost use Rattle.listing_loop.specs.Run.{Ran};
ghost use Rattle.listing_loop.specs.Stages.{is_listing, is_reading, is_over, stage_read, stage_written};
ghost use Rattle.listing_loop.specs.Standing.{Stands};
ghost use Rattle.listing_loop.specs.declared.session.Stage.TheVariants.{Listing, Listed};
ghost use Rattle.listing_text.specs.declared.listing.State.TheVariants.{More};

use input_window::Input;
use listing_text::{LONGEST, State, list};
use std::io::{Read, Write};

// What a listing does next, or why it is over.
#[derive(Clone, Copy)]
pub enum Stage {
    // The bytes that are there are to be listed.
    Listing,
    // They are listed as far as it goes, and this is why it goes no further: the text has no room, more bytes are needed, the
    // closing line is made, or the numbers are too long.
    Listed(State),
    // A read failed.
    Unreadable,
    // A write failed.
    Unwritable,
}

impl Stage {
    // After a read, by how many bytes it gave, if it did not fail.
    fn after_read(got: Option<usize>) -> Self
        ensures { result ≡ stage_read got }
    {
        match got {
            Some(_) => Stage::Listing,
            None => Stage::Unreadable,
        }
    }

    // After a write, which took its text or failed.
    fn after_write(self, taken: bool) -> Self
        ensures { result ≡ stage_written taken self }
    {
        if !taken {
            Stage::Unwritable
        } else if self.is_over() {
            self
        } else {
            Stage::Listing
        }
    }

    fn is_listing(self) -> bool
        ensures { result ≡ is_listing self }
    {
        matches!(self, Stage::Listing)
    }

    // More bytes are needed.
    fn is_reading(self) -> bool
        ensures { result ≡ is_reading self }
    {
        matches!(self, Stage::Listed(State::More))
    }

    fn is_over(self) -> bool
        ensures { result ≡ is_over self }
    {
        matches!(
            self,
            Stage::Listed(State::Done | State::TooLong) | Stage::Unreadable | Stage::Unwritable
        )
    }
}

// Where a listing is.
#[derive(Clone, Copy)]
pub struct Session {
    // What was read and is not listed yet, and where it stands in the capture.
    pub input: Input,
    // The frames before that.
    pub frames: u64,
    // How many bytes at the start of the text are not written yet.
    pub waiting: usize,
    pub stage: Stage,
}

impl Session {
    // Nothing is read yet.
    fn start() -> Self
        ensures stage { result.stage ≡ Listing }
        ensures stands { (window text : List ℕ) → Stands nothing_yet result window text }
    {
        Session {
            input: Input::start(),
            frames: 0,
            waiting: 0,
            stage: Stage::Listing,
        }
    }

    // Lists what the window holds, as far as the text has room for it.
    fn listed(self, window: &[u8], text: &mut [u8]) -> Self
        requires { self.waiting ≤ length text.old }
        ensures stage { is_listing result.stage ≡ false }
        ensures stands { (h : History) → self.stage ≡ Listing → Stands h self window.now text.old → Stands h result window.now text.new }
    {
        let Input { ended, offset, .. } = self.input;
        let rest = self.input.rest(window);
        let p = list(rest, ended, offset, self.frames, &mut text[self.waiting..]);
        Session {
            input: self.input.taken(p.from),
            frames: p.frames,
            waiting: self.waiting + p.written,
            stage: Stage::Listed(p.state),
        }
    }

    // Where the longest frame has no room after what the window holds, what is not listed yet is moved to the front.
    fn make_room(self, window: &mut [u8]) -> Self
        ensures stands { (h : History) (text : List ℕ) → Stands h self window.old text → Stands h result window.new text }
        ensures stage { result.stage ≡ self.stage }
        ensures room { (h : History) (text : List ℕ) → self.stage ≡ Listed More → Stands h self window.old text → 65536 ≤ length window.old → result.input.held < length window.new }
    {
        Session {
            input: self.input.make_room(window, LONGEST),
            ..self
        }
    }

    // After a read into the window from `held` on, by how many bytes it gave, if it did not fail.
    fn received(self, window: &[u8], got: Option<usize>) -> Self
        requires { self.input.held < length window.now }
        ensures stage { result.stage ≡ stage_read got }
        ensures stands { (h : History) (text : List ℕ) → self.stage ≡ Listed More → Stands h self window.now text → Stands (after_read got (drop self.input.held window.now) h) result window.now text }
    {
        Session {
            input: self.input.received(window, got),
            stage: Stage::after_read(got),
            ..self
        }
    }

    // The text that waits.
    fn waiting(self, text: &[u8]) -> &[u8]
        requires { self.waiting ≤ length text.now }
        ensures { result.now ≡ take self.waiting text.now }
    {
        &text[..self.waiting]
    }

    // After a write of the lines that waited, which took them or failed. The lines are there for the contract alone.
    fn wrote(self, lines: &[u8], taken: bool) -> Self
        ensures waiting { result.waiting ≡ 0 }
        ensures stage { result.stage ≡ stage_written taken self.stage }
        ensures stands { (h : History) (window text : List ℕ) → lines.now ≡ take self.waiting text → Stands h self window text → Stands (after_write taken lines.now h) result window text }
    {
        Session {
            waiting: 0,
            stage: self.stage.after_write(taken),
            ..self
        }
    }
}

// Lists what the reader gives to the writer, up to the first refusal or the input's end. The window holds four of the longest
// frames. The arrays have the sizes that `turns` requires, so that no caller has to see to it.
pub fn run<R: Read, W: Write>(
    reader: &mut R,
    writer: &mut W,
    window: &mut [u8; 262144],
    text: &mut [u8; 65536],
) -> Session
    ensures { Ran result window.new text.new }
{
    turns(reader, writer, window, text)
}

// A turn lists what is there, and then makes one read, or one write. A single read keeps the writer of a pipe busy, which a
// window that is filled first does not. The text is written once it has no room for another line, or the listing is over.
// A proved loop has to end, and nothing says that an input does. So the turns made are counted, up to a number that no run
// gets to.
fn turns<R: Read, W: Write>(
    reader: &mut R,
    writer: &mut W,
    window: &mut [u8],
    text: &mut [u8],
) -> Session
    requires window_size { 65536 ≤ length window.old }
    requires text_size { 128 ≤ length text.old }
    ensures { Ran result window.new text.new }
{
    let mut at = Session::start();
    for made in 0..u64::MAX {
        at = at.listed(window, text);
        if at.stage.is_reading() {
            at = at.make_room(window);
            let held = at.input.held;
            let got = one_read(reader, &mut window[held..]);
            at = at.received(window, got);
        }
        if !at.stage.is_listing() {
            let lines = at.waiting(text);
            let taken = writer.write_all(lines).is_ok();
            at = at.wrote(lines, taken);
            if !at.stage.is_listing() {
                return at;
            }
        }
    }
    at
}

// One read, by how many bytes it put at the start of the part, if it did not fail.
fn one_read<R: Read>(reader: &mut R, part: &mut [u8]) -> Option<usize>
    ensures within { IfSome result (λ n. n ≤ length part.new) }
    ensures given { Gives (R.remaining reader.old) (R.remaining reader.new) result part.new }
{
    reader.read(part).ok()
}
