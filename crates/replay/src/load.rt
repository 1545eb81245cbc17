// Cases of kind 1: the answer of a load, a byte for its number and a word for its place.

use text::page::write_page;
use text::put::{put_answer, put_bytes, put_decimal, put_newline};
use text::word::{byte_at, first_word};
use trace::answer::{number_of, place_of};

// An answer in numbers.
#[derive(Clone, Copy, PartialEq, Eq)]
struct Told {
    number: u64,
    place: u64,
}

fn answered(trace: &[u8]) -> Told {
    let answer = planner::load(trace).answer;
    Told {
        number: number_of(answer),
        place: place_of(answer) as u64,
    }
}

fn expected(answer: &[u8]) -> Told {
    Told {
        number: u64::from(byte_at(answer, 0)),
        place: u64::from(answer.get(1..).map_or(0, first_word)),
    }
}

fn report(rt: &impl Print, case: u64, expected: Told, got: Told) {
    let mut line = [0u8; 160];
    let to = put_bytes(&mut line, 0, b"case ");
    let to = put_decimal(&mut line, to, case);
    let to = put_bytes(&mut line, to, b": expected ");
    let to = put_answer(&mut line, to, expected.number, expected.place);
    let to = put_bytes(&mut line, to, b", got ");
    let to = put_answer(&mut line, to, got.number, got.place);
    let to = put_newline(&mut line, to);
    let _ = write_page(rt, &line, to);
}

// Whether the load of a trace answers what is expected.
pub fn is_right(rt: &impl Print, case: u64, trace: &[u8], answer: &[u8]) -> bool {
    let expected = expected(answer);
    let got = answered(trace);
    let right = answer.len() == 5 && got == expected;
    if !right {
        report(rt, case, expected, got);
    }
    right
}
