// UTF-8 as RFC 3629 has it: no overlong form, no surrogate, nothing above 10FFFF.
ghost use Rattle.std.specs.Prelude.{◌≡◌, ◌+◌, ◌≤◌, length, take, drop, Some};
ghost use Rattle.utf8_text.specs.Utf8.{utf8, ascii, first, next, expects};

// What has to follow in a character that has begun: `left` bytes, the first of them from `low` to `high`, the others
// tail bytes. `left` is 0 between two characters.
#[derive(Clone, Copy, Debug, PartialEq, Eq)]
pub struct Pending {
    pub left: u8,
    pub low: u8,
    pub high: u8,
}

// Most texts are ASCII alone, which is told eight bytes at a time.
#[tactic(auto, using(crate::proofs::Ascii::ascii_utf8, crate::proofs::Following::start, crate::proofs::Following::turn, crate::proofs::Following::broken, crate::proofs::Following::ended))]
pub fn is_utf8(s: &[u8]) -> bool
    ensures { result ≡ utf8 s.now }
{
    if is_ascii(s) {
        return true;
    }
    let mut p = Pending::tails(0);
    for b in s {
        match p.after(*b) {
            Some(next) => p = next,
            None => return false,
        }
    }
    p.left == 0
}

// Eight bytes at a time; the last eight may overlap those before them. It is quicker than the library's `is_ascii` on texts of
// 8 to 32 and of 65 to 200 bytes, and than `as_chunks` from 64 bytes on.
fn is_ascii(s: &[u8]) -> bool
    ensures { result ≡ ascii s.now }
{
    let n = s.len();
    if n < 8 {
        return bytes_ascii(s);
    }
    let last = n - 8;
    let mut i = 0;
    while i < last {
        if !word_ascii(s, i) {
            return false;
        }
        i += 8;
    }
    // A branch, and not the answer itself, keeps this one test of a word too.
    if word_ascii(s, last) {
        return true;
    }
    false
}

fn bytes_ascii(s: &[u8]) -> bool
    ensures { result ≡ ascii s.now }
{
    for b in s {
        if 0x7f < *b {
            return false;
        }
    }
    true
}

// The eight bytes from a place on. `&` evaluates both sides, so that the compiler makes one test of all eight.
#[tactic(auto, using(crate::proofs::Ascii::eight))]
fn word_ascii(s: &[u8], i: usize) -> bool
    requires { i + 8 ≤ length s.now }
    ensures { result ≡ ascii (take 8 (drop i s.now)) }
{
    four_ascii(s, i) & four_ascii(s, i + 4)
}

#[tactic(auto, using(crate::proofs::Ascii::four))]
fn four_ascii(s: &[u8], i: usize) -> bool
    requires { i + 4 ≤ length s.now }
    ensures { result ≡ ascii (take 4 (drop i s.now)) }
{
    (s[i] < 0x80) & (s[i + 1] < 0x80) & (s[i + 2] < 0x80) & (s[i + 3] < 0x80)
}

impl Pending {
    // `left` tail bytes.
    fn tails(left: u8) -> Pending
        ensures { result ≡ record { left = left; low = 0x80; high = 0xbf } }
    {
        Pending {
            left,
            low: 0x80,
            high: 0xbf,
        }
    }

    // The state after a byte; none where nothing can make the text right.
    #[tactic(auto, using(crate::proofs::Following::between, crate::proofs::Following::out_of_range, crate::proofs::Following::in_range, crate::proofs::Following::below, crate::proofs::Following::above))]
    fn after(self, b: u8) -> Option<Pending>
        ensures { expects result ≡ next (expects (Some self)) b }
    {
        if self.left == 0 {
            return Pending::after_first(b);
        }
        if b < self.low || self.high < b {
            return None;
        }
        Some(Pending::tails(self.left - 1))
    }

    // The alternatives of UTF8-char, by their first byte.
    #[tactic(auto, using(crate::proofs::Following::after_e0, crate::proofs::Following::after_ed, crate::proofs::Following::after_f0, crate::proofs::Following::after_f4, crate::proofs::Following::one_byte, crate::proofs::Following::two_bytes_lem, crate::proofs::Following::three_bytes, crate::proofs::Following::three_bytes_high, crate::proofs::Following::four_bytes, crate::proofs::Following::no_first_low, crate::proofs::Following::no_first_high), unfolding(crate::specs::Utf8::expects))]
    fn after_first(b: u8) -> Option<Pending>
        ensures { expects result ≡ first b }
    {
        match b {
            0x00..=0x7f => Some(Pending::tails(0)),
            0x80..=0xc1 => None,
            0xc2..=0xdf => Some(Pending::tails(1)),
            0xe0 => Some(Pending {
                left: 2,
                low: 0xa0,
                high: 0xbf,
            }),
            0xe1..=0xec => Some(Pending::tails(2)),
            0xed => Some(Pending {
                left: 2,
                low: 0x80,
                high: 0x9f,
            }),
            0xee..=0xef => Some(Pending::tails(2)),
            0xf0 => Some(Pending {
                left: 3,
                low: 0x90,
                high: 0xbf,
            }),
            0xf1..=0xf3 => Some(Pending::tails(3)),
            0xf4 => Some(Pending {
                left: 3,
                low: 0x80,
                high: 0x8f,
            }),
            0xf5..=0xff => None,
        }
    }
}
