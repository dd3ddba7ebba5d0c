// Integers at the edges of their widths, read and written, unsigned and signed.
use wire::{Unsigned, Width};

const STANDARD_OUTPUT: i32 = 1;

const BYTES: [u8; 16] = [
    0x00, 0x00, 0x01, 0x7f, 0xff, 0xff, 0x80, 0x00, 0x80, 0xff, 0x7f, 0xff, 0xff, 0xff, 0xff, 0xfe,
];

const EDGES: [u64; 20] = [
    0,
    1,
    127,
    128,
    255,
    256,
    32767,
    32768,
    65535,
    65536,
    0xff_ffff,
    0x100_0000,
    0x7fff_ffff,
    0x8000_0000,
    0xffff_ffff,
    0x1_0000_0000,
    0x0123_4567_89ab_cdef,
    0x7fff_ffff_ffff_ffff,
    0x8000_0000_0000_0000,
    0xffff_ffff_ffff_ffff,
];

pub fn run() {
    for at in 0..18 {
        reads(at);
    }
    for x in EDGES {
        writes(x);
    }
}

fn reads(at: usize) {
    test_text::word(b"read");
    test_text::decimal(at as u64);
    reading(at, Width::One);
    reading(at, Width::Two);
    reading(at, Width::Three);
    reading(at, Width::Four);
    reading(at, Width::Eight);
    test_text::line();
}

fn writes(x: u64) {
    test_text::word(b"write");
    test_text::decimal(x);
    writing(x, Width::One);
    writing(x, Width::Two);
    writing(x, Width::Three);
    writing(x, Width::Four);
    writing(x, Width::Eight);
    signs(x);
    test_text::line();
}

fn reading(at: usize, width: Width) {
    match wire::number_at(&BYTES, at, width) {
        Some(v) => test_text::decimal(v),
        None => test_text::word(b" cut"),
    };
}

// At place 1 of ten bytes, printed as two numbers, with the place behind.
fn writing(x: u64, width: Width) {
    let mut out = [0xeeu8; 10];
    let next = wire::put_number(&mut out, 1, width, x);
    test_text::decimal(next as u64);
    shown(&out);
}

fn shown(out: &[u8]) {
    test_text::word(b" ");
    for b in out {
        byte(*b);
    }
}

fn byte(b: u8) {
    io::print_hex(STANDARD_OUTPUT, b as u64, 2);
}

// There and back through the signed types: the bits as they were, and whether the number is below 0.
fn signs(x: u64) {
    let a = ((x % 256) as u8).signed();
    sign(a < 0);
    test_text::decimal(u8::unsigned(a) as u64);
    let b = ((x % 4294967296) as u32).signed();
    sign(b < 0);
    test_text::decimal(u32::unsigned(b) as u64);
    let c = x.signed();
    sign(c < 0);
    test_text::decimal(u64::unsigned(c));
}

fn sign(below: bool) {
    if below {
        test_text::word(b" -");
    } else {
        test_text::word(b" +");
    }
}
