// Numbers and bytes in ASCII digits.
ghost use Rattle.std.specs.Prelude.{◌≡◌, ◌++◌, min, ◌<◌, length, take, drop};
ghost use Rattle.io.specs.Counts.{IsPrefixLen};
ghost use Rattle.test_text.specs.Digits.{is_digit, digit_of, number_in, octets};

// The decimal number whose digits the text begins with; of a longer one the last ten digits.
pub fn number(text: &[u8]) -> u64
    ensures { result ≡ number_in text.now }
{
    let mut value: u64 = 0;
    for b in text {
        if !is_digit(*b) {
            break;
        }
        value = (value * 10 + digit(*b) as u64) % 10_000_000_000;
    }
    value
}

fn is_digit(b: u8) -> bool
    ensures { result ≡ is_digit b }
{
    matches!(b, b'0'..=b'9')
}

// Puts the bytes that pairs of hexadecimal digits give at the start of out, as many as there is room for, and answers how
// many.
pub fn unhex(text: &[u8], out: &mut [u8]) -> usize
    ensures value { result ≡ min (length (octets text.now)) (length out.old) }
    ensures out_after { out.new ≡ take result (octets text.now) ++ drop result out.old }
    ensures prefix_len { IsPrefixLen result out.new }
{
    let n = out.len().min(text.len() / 2);
    for i in 0..n {
        out[i] = digit(text[i * 2]) * 16 + digit(text[i * 2 + 1]);
    }
    n
}

// The value of a digit, decimal or hexadecimal in lower case.
fn digit(b: u8) -> u8
    ensures value { result ≡ digit_of b }
    ensures upper_bound { result < 16 }
{
    if b < 0x61 { b % 16 } else { (b - 0x57) % 16 }
}
