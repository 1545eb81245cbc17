// The words that the program was started with.

ghost use Rattle.io.specs.Counts.{IsPrefixLen};

use std::env::{Env, FillError};

fn is_given(rt: &impl Env, i: usize) -> bool {
    let mut word = [0u8; 16];
    !matches!(rt.arg(i, &mut word), Err(FillError::NotPresent))
}

// How many there are, the program's own name among them.
pub fn arg_count(rt: &impl Env) -> usize {
    (0..usize::MAX)
        .find(|i| !is_given(rt, *i))
        .unwrap_or(usize::MAX)
}

// Puts word i at the start of the buffer. Answers its length, 0 where it is missing or longer than the buffer.
pub fn arg(rt: &impl Env, i: usize, buffer: &mut [u8]) -> usize
    ensures { IsPrefixLen result buffer.new }
{
    rt.arg(i, buffer).unwrap_or(0)
}
