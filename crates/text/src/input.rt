// Reading the input in whole pieces. A read that fails counts as the input's end.

ghost use Rattle.io.specs.Counts.{IsPrefixLen};

use std::io::Read;

// Reads until the buffer is full or the input ends. Answers how many bytes stand in the buffer.
pub fn read_full(input: &mut impl Read, buffer: &mut [u8]) -> usize
    ensures { IsPrefixLen result buffer.new }
{
    let mut done = 0;
    while done < buffer.len() {
        match input.read(&mut buffer[done..]) {
            Ok(0) | Err(_) => return done,
            Ok(n) => done += n,
        }
    }
    done
}
