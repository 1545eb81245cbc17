// Frames of standard input: a word of length, then that many bytes.

ghost use Rattle.std.specs.Prelude.{IfSome};
ghost use Rattle.io.specs.Counts.{IsPrefixLen};

use crate::input::read_full;
use std::io::Read;

// The word's top bit says that its trace is asked for without event lines.
const BARE: u32 = 0x8000_0000;

// The frame's first bytes, length of them, stand in the buffer.
#[derive(Clone, Copy)]
pub struct Frame {
    pub bare: bool,
    pub length: usize,
}

// None where the input ends first.
fn head(input: &mut impl Read) -> Option<Frame> {
    let mut word = [0u8; 4];
    if read_full(input, &mut word) < 4 {
        return None;
    }
    let word = u32::from_le_bytes(word);
    Some(Frame {
        bare: word >= BARE,
        length: (word % BARE) as usize,
    })
}

// Reads past n bytes, or to the end of the input.
fn skip(input: &mut impl Read, n: usize) {
    let mut buffer = io::buffer();
    let mut left = n;
    while left > 0 {
        let want = left.min(buffer.len());
        let got = read_full(input, &mut buffer[..want]);
        if got == 0 {
            return;
        }
        left -= got;
    }
}

// None where the input ends before the frame does. Of a frame longer than the buffer the rest is read past.
pub fn next_frame(input: &mut impl Read, buffer: &mut [u8]) -> Option<Frame>
    ensures { IfSome result (λ frame. IsPrefixLen frame.length buffer.new) }
{
    let head = head(input)?;
    let length = head.length.min(buffer.len());
    let got = read_full(input, &mut buffer[..length]);
    skip(input, head.length - length);
    if got < length {
        None
    } else {
        Some(Frame { length, ..head })
    }
}
