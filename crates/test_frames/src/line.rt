// The lines of the input, each taken apart.
use crate::answer;

pub fn run(text: &[u8]) {
    for line in text.split(|b| *b == b'\n') {
        vector(line);
    }
}

// Name, limit and bytes, with a space between them. Any other line is passed over.
fn vector(line: &[u8]) {
    let mut parts = line.splitn(3, |b| *b == b' ');
    let (Some(name), Some(limit), Some(bytes)) = (parts.next(), parts.next(), parts.next()) else {
        return;
    };
    let limit = (test_text::number(limit) % 0x1_0000_0000) as u32;
    let mut space = io::buffer();
    let n = test_text::unhex(bytes, &mut space);
    answer::run(name, limit, &space[..n]);
    if n < space.len() {
        space[n] = 0xff;
        answer::longer(name, limit, &space[..n + 1]);
    }
}
