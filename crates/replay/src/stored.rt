// The stored form of cases. A case is a byte of kind, its trace, and its expected answer: a word of length, then that many bytes.
// A trace is pieces, each a word of how often it stands there, a word of length and its bytes; a word 0 ends them.

ghost use Rattle.std.specs.Prelude.{◌≡◌, ◌≤◌, length, take, drop};

use text::put::put_bytes;
use text::word::first_word;

// The first n bytes of what is left of a file, as far as they are there, and the rest.
pub fn split(file: &[u8], n: usize) -> (&[u8], &[u8])
    ensures first { result.0.now ≡ take n file.now }
    ensures rest { result.1.now ≡ drop n file.now }
{
    file.split_at(n.min(file.len()))
}

// The word at the start, and the rest. What is missing of a word is 0.
pub fn split_word(file: &[u8]) -> (usize, &[u8])
    ensures { result.1.now ≡ drop 4 file.now }
{
    let (word, rest) = split(file, 4);
    (first_word(word) as usize, rest)
}

// Stops where a turn adds nothing: at the end of the buffer, or with an empty piece.
fn put_times(trace: &mut [u8], at: usize, piece: &[u8], times: usize) -> usize {
    let mut to = at;
    for _ in 0..times {
        let next = put_bytes(trace, to, piece);
        if next == to {
            break;
        }
        to = next;
    }
    to
}

// Takes a trace out of its pieces: so many bytes of the buffer, and what is left of the file. Of a trace longer than the buffer
// the first bytes are kept.
pub fn unpack<'a>(file: &'a [u8], trace: &mut [u8]) -> (usize, &'a [u8])
    ensures { length result.1.now ≤ length file.now }
{
    let mut to = 0;
    let mut left = file;
    while !left.is_empty() {
        let (times, after) = split_word(left);
        if times == 0 {
            return (to, after);
        }
        let (size, after) = split_word(after);
        let (piece, after) = split(after, size);
        to = put_times(trace, to, piece, times);
        left = after;
    }
    (to, left)
}
