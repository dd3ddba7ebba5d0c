// Words and numbers on standard output. No contract can say what is written there, so each answers how long it is.
ghost use Rattle.std.specs.Prelude.{◌≡◌, min, max, length};
ghost use Rattle.io.specs.Digits.{IsDigitCount};

const STANDARD_OUTPUT: i32 = 1;

pub fn word(s: &[u8]) -> usize
    ensures { result ≡ length s.now }
{
    io::write_all(STANDARD_OUTPUT, s);
    s.len()
}

// A number with a space in front, which does not count: the answer is how many digits there are.
pub fn decimal(n: u64) -> usize
    ensures { IsDigitCount 10 1 n result }
{
    let mut text = [0u8; 20];
    let k = io::decimal(n, &mut text);
    word(b" ");
    word(&text[..k]);
    k
}

pub fn hex(n: u64, width: usize) -> usize
    ensures { IsDigitCount 16 (min (max width 1) 16) n result }
{
    let mut text = [0u8; 16];
    let k = io::hex(n, width, &mut text);
    word(b" ");
    word(&text[..k]);
    k
}

pub fn line() -> usize
    ensures { result ≡ 1 }
{
    word(b"\n")
}
