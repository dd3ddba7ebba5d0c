// Where a window stands in its input. The window is a lent slice, and its caller makes the reads. Places that no window has,
// which a caller made up, count as 0.
ghost use Rattle.std.specs.Prelude.{List, [], ◌≡◌, ℕ, Option, ◌+◌, ◌≤◌, ◌<◌, length, take, drop};
ghost use Rattle.input_window.specs.Reads.{in_order, after_read};
ghost use Rattle.input_window.specs.Window.{Shows, taken_from};

#[derive(Clone, Copy)]
pub struct Input {
    // The bytes of the window from a place up to another, which were read and are not taken yet.
    pub from: usize,
    pub held: usize,
    // Where the first of them stands in the input.
    pub offset: u64,
    // The input has ended.
    pub ended: bool,
}

impl Input {
    // Nothing is read yet.
    pub fn start() -> Self
        ensures offset { result.offset ≡ 0 }
        ensures shows { (window : List ℕ) → Shows [] result window }
    {
        Input {
            from: 0,
            held: 0,
            offset: 0,
            ended: false,
        }
    }

    // What was read and is not taken yet.
    pub fn rest(self, window: &[u8]) -> &[u8]
        ensures { (reads : List (List ℕ)) → Shows reads self window.now → result.now ≡ drop self.offset (in_order reads) }
    {
        let at = self.inside(window.len());
        &window[at.from..at.held]
    }

    // n bytes further. Where not so many are there, or the offset would pass 2^64 - 1, none are taken.
    pub fn taken(self, n: usize) -> Self
        ensures value { result ≡ taken_from self n }
        ensures shows { (reads : List (List ℕ)) (window : List ℕ) → Shows reads self window → n ≤ length (drop self.offset (in_order reads)) → self.offset + n < 0x1_0000_0000_0000_0000 → Shows reads result window × (result.offset ≡ self.offset + n) }
    {
        if self.held < n || self.held - n < self.from || u64::MAX - self.offset < n as u64 {
            return self;
        }
        Input {
            from: self.from + n,
            offset: self.offset + n as u64,
            ..self
        }
    }

    // Where the window has less room than for `longest` bytes after those that it holds, these are moved to its front. So there is
    // room to read, if fewer than the longest are not taken yet and the window holds so many.
    #[tactic(auto, using(crate::proofs::Windows::placed, crate::proofs::Windows::placed_length, crate::proofs::Windows::front_shows))]
    pub fn make_room(self, window: &mut [u8], longest: usize) -> Self
        ensures shows { (reads : List (List ℕ)) → Shows reads self window.old → Shows reads result window.new }
        ensures offset { result.offset ≡ self.offset }
        ensures room { (reads : List (List ℕ)) → Shows reads self window.old → length (drop self.offset (in_order reads)) < longest → longest ≤ length window.old → result.held < length window.new }
    {
        let at = self.inside(window.len());
        if longest <= window.len() - at.held {
            return at;
        }
        window.copy_within(at.from..at.held, 0);
        Input {
            from: 0,
            held: at.held - at.from,
            ..at
        }
    }

    // After a read into the window from `held` on, by how many bytes it gave; one that failed gave nothing. There has to be room:
    // a read into none gives nothing, which says nothing of the input's end.
    pub fn received(self, window: &[u8], got: Option<usize>) -> Self
        ensures shows { (reads : List (List ℕ)) → Shows reads self window.now → self.held < length window.now → Shows (after_read got (drop self.held window.now) reads) result window.now }
        ensures offset { result.offset ≡ self.offset }
    {
        let Some(got) = got else {
            return self;
        };
        let at = self.inside(window.len());
        let n = got.min(window.len() - at.held);
        Input {
            held: at.held + n,
            ended: n == 0,
            ..at
        }
    }

    // The places that a window of so many bytes has.
    fn inside(self, len: usize) -> Self
        ensures inside { (result.from ≤ result.held) × (result.held ≤ len) × (result.offset ≡ self.offset) }
        ensures value { self.from ≤ self.held → self.held ≤ len → result ≡ self }
    {
        if self.from <= self.held && self.held <= len {
            return self;
        }
        Input {
            from: 0,
            held: 0,
            ..self
        }
    }
}
