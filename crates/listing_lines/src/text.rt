// A text in a lent buffer, and the lines of a listing put behind it, in ASCII.
ghost use Rattle.std.specs.Prelude.{[], ◌∷◌};
ghost use Rattle.listing_lines.specs.Text.{decimal, hex};
ghost use Rattle.listing_lines.specs.Line.{frame_line, cut_line, refused_line, closing_line};
ghost use Rattle.listing_lines.specs.Printed.{Prints};

// The first len bytes of a lent buffer. A word or number that has no room behind them is left out.
#[derive(Drop)]
pub struct Text<'a> {
    pub out: &'a mut [u8],
    pub len: usize,
}

impl Text<'_> {
    // A frame: offset, total bytes, key, version.
    pub fn frame_line(&mut self, offset: u64, total: u64, key: u16, version: u16)
        ensures { Prints (frame_line offset total key version) self.old self.new }
    {
        self.decimal(offset);
        self.word(b" ");
        self.decimal(total);
        self.word(b" ");
        self.hex(key);
        self.word(b" ");
        self.decimal(version as u64);
        self.word(b"\n");
    }

    // A frame that is cut: offset, the bytes that are left, the bytes that it needs.
    pub fn cut_line(&mut self, offset: u64, left: u64, needed: u64)
        ensures { Prints (cut_line offset left needed) self.old self.new }
    {
        self.decimal(offset);
        self.word(b" CUT ");
        self.decimal(left);
        self.word(b" of ");
        self.decimal(needed);
        self.word(b"\n");
    }

    // Any other refusal.
    pub fn refused_line(&mut self, offset: u64, number: u8)
        ensures { Prints (refused_line offset number) self.old self.new }
    {
        self.decimal(offset);
        self.word(b" REFUSED ");
        self.decimal(number as u64);
        self.word(b"\n");
    }

    // The closing line: how many frames, and how the capture ended.
    pub fn closing_line(&mut self, frames: u64, ending: &[u8])
        ensures { Prints (closing_line frames ending.now) self.old self.new }
    {
        self.word(b"frames ");
        self.decimal(frames);
        self.word(ending);
    }

    fn word(&mut self, word: &[u8])
        ensures { Prints (word.now ∷ []) self.old self.new }
    {
        self.len = wire::put_bytes(self.out, self.len, word, 0, word.len());
    }

    fn decimal(&mut self, n: u64)
        ensures { Prints (decimal n ∷ []) self.old self.new }
    {
        let mut text = [0u8; 20];
        let k = io::decimal(n, &mut text);
        self.word(&text[..k]);
    }

    fn hex(&mut self, n: u16)
        ensures { Prints (hex n ∷ []) self.old self.new }
    {
        let mut text = [0u8; 16];
        let k = io::hex(n as u64, 4, &mut text);
        self.word(&text[..k]);
    }
}
