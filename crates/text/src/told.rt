// The lines of a plan: one a decision, from its four words, and the line that ends it.

ghost use Rattle.io.specs.Counts.{IsPrefixLen};

use crate::put::{put_answer, put_bytes, put_decimal, put_hex, put_newline, put_space};

// How a plan ends: after so many steps, or by a refusal, of a load with the place that shows it.
#[derive(Clone, Copy)]
pub enum Last {
    End { steps: u64 },
    LoadRefused { number: u64, place: u64 },
    StepRefused { number: u64 },
}

// The word of a decision's kind, between spaces.
fn put_kind(out: &mut [u8], at: usize, kind: u64) -> usize
    ensures { IsPrefixLen result out.new }
{
    match kind {
        1 => put_bytes(out, at, b" arrived "),
        2 => put_bytes(out, at, b" failed "),
        3 => put_bytes(out, at, b" completed "),
        4 => put_bytes(out, at, b" evicted "),
        _ => put_bytes(out, at, b" started "),
    }
}

// Kinds 1 and 2 have no other word.
fn put_other(out: &mut [u8], at: usize, kind: u64, other: u64) -> usize
    ensures { IsPrefixLen result out.new }
{
    if kind < 3 {
        return put_newline(out, at);
    }
    let to = put_space(out, at);
    let to = put_decimal(out, to, other);
    put_newline(out, to)
}

// A decision's words are its time, its kind, its job and the word that some kinds have besides.
pub fn put_told(out: &mut [u8], at: usize, words: [u64; 4]) -> usize
    ensures { IsPrefixLen result out.new }
{
    let [time, kind, job, other] = words;
    let to = put_hex(out, at, time);
    let to = put_kind(out, to, kind);
    let to = put_decimal(out, to, job);
    put_other(out, to, kind, other)
}

// The lines of the first n decisions; a decision that the words do not hold whole has none.
pub fn put_decisions(out: &mut [u8], at: usize, words: &[u64], n: usize) -> usize
    ensures { IsPrefixLen result out.new }
{
    let mut to = at.min(out.len());
    for decision in words.as_chunks::<4>().0.iter().take(n) {
        to = put_told(out, to, *decision);
    }
    to
}

pub fn put_last(out: &mut [u8], at: usize, last: Last) -> usize
    ensures { IsPrefixLen result out.new }
{
    let to = match last {
        Last::End { steps } => {
            let to = put_bytes(out, at, b"end ");
            put_decimal(out, to, steps)
        }
        Last::LoadRefused { number, place } => put_answer(out, at, number, place),
        Last::StepRefused { number } => {
            let to = put_bytes(out, at, b"refused ");
            put_decimal(out, to, number)
        }
    };
    put_newline(out, to)
}
