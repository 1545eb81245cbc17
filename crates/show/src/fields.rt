// Fields of a line, each after a space.

use model::number::bits_of;
use text::put::{put_byte, put_decimal, put_hex, put_maybe, put_space};

pub fn number(out: &mut [u8], at: usize, n: u64) -> usize {
    let to = put_space(out, at);
    put_decimal(out, to, n)
}

// What is stored plus 1, 0 for none.
pub fn maybe(out: &mut [u8], at: usize, n: u64) -> usize {
    let to = put_space(out, at);
    put_maybe(out, to, n)
}

pub fn bits(out: &mut [u8], at: usize, x: f64) -> usize {
    let to = put_space(out, at);
    put_hex(out, to, bits_of(x))
}

pub fn flag(out: &mut [u8], at: usize, b: bool) -> usize {
    let to = put_space(out, at);
    put_byte(out, to, if b { b'1' } else { b'0' })
}

// A priority p, which stands as p + 2^31.
pub fn priority(out: &mut [u8], at: usize, p: u32) -> usize {
    let p = i64::from(p) - 0x8000_0000;
    let mut to = put_space(out, at);
    if p < 0 {
        to = put_byte(out, to, b'-');
    }
    put_decimal(out, to, p.unsigned_abs())
}
