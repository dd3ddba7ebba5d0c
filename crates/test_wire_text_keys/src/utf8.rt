// Every leading byte, followed by up to three bytes at the edges of the ranges that RFC 3629 names.
ghost use Rattle.std.specs.Prelude.{◌≡◌, ◌≤◌};
ghost use Rattle.test_wire_text_keys.specs.Texts.{edge, passes, accepted};

const EDGES: [u8; 10] = [0x00, 0x7f, 0x80, 0x8f, 0x90, 0x9f, 0xa0, 0xbf, 0xc0, 0xff];

#[derive(Clone, Copy)]
struct Accepted {
    count: u64,
    sum: u64,
}

// A line for each leading byte: for each number of bytes after it how many texts pass, and the sum of their numbers
// modulo 65,536.
pub fn run() {
    for lead in 0..=u8::MAX {
        of_lead(lead);
    }
}

fn of_lead(lead: u8) {
    test_text::word(b"utf8");
    test_text::hex(lead as u64, 2);
    passing(lead, 1, 1);
    passing(lead, 2, 10);
    passing(lead, 3, 100);
    passing(lead, 4, 1000);
    test_text::line();
}

fn passing(lead: u8, len: usize, texts: usize)
    requires { (len ≤ 4) × (texts ≤ 1000) }
{
    let a = tally(lead, len, texts);
    test_text::decimal(a.count);
    test_text::decimal(a.sum % 65536);
}

// How many of the texts of len bytes numbered below `texts` pass, and the sum of their numbers.
fn tally(lead: u8, len: usize, texts: usize) -> Accepted
    requires { (len ≤ 4) × (texts ≤ 1000) }
    ensures { result ≡ accepted lead len texts }
{
    let mut count = 0;
    let mut sum = 0;
    for k in 0..texts {
        if passes(lead, len, k) {
            count += 1;
            sum += k as u64;
        }
    }
    Accepted { count, sum }
}

// Text number k: its decimal digits, the lowest first, choose the edges.
#[tactic(auto, unfolding(crate::specs::Texts::passes))]
fn passes(lead: u8, len: usize, k: usize) -> bool
    requires { len ≤ 4 }
    ensures { result ≡ passes lead len k }
{
    let text = [lead, edge(k), edge(k / 10), edge(k / 100)];
    utf8_text::is_utf8(&text[0..len])
}

// The edge that a number's last digit chooses.
fn edge(n: usize) -> u8
    ensures { result ≡ edge n }
{
    EDGES[n % 10]
}
