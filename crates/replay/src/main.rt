// Runs stored cases, given on standard input, and tells each whose answer is not the expected one.

#![tactic(auto)]

mod load;
mod plan;
mod stored;

ghost use Rattle.std.specs.Prelude.{◌≡◌, ◌≤◌, length};

use stored::{split, split_word, unpack};
use text::input::read_full;
use text::page::write_page;
use text::put::{put_bytes, put_decimal};

// All cases are held at once.
const ROOM: usize = 524288;

// One byte over what a trace may have is enough to refuse it by.
const KEPT: usize = 65537;

fn is_right(rt: &impl Print, case: u64, kind: u8, trace: &[u8], answer: &[u8]) -> bool {
    match kind {
        1 => load::is_right(rt, case, trace, answer),
        2 => plan::is_right(rt, case, trace, answer),
        _ => {
            let mut line = [0u8; 80];
            let to = put_bytes(&mut line, 0, b"case ");
            let to = put_decimal(&mut line, to, case);
            let to = put_bytes(&mut line, to, b": no such kind\n");
            let _ = write_page(rt, &line, to);
            false
        }
    }
}

// The case of a kind at the start of what is left of the file: whether it is right, and the rest.
fn run_case<'a>(
    rt: &impl Print,
    file: &'a [u8],
    case: u64,
    kind: u8,
    trace: &mut [u8],
) -> (bool, &'a [u8])
    ensures { length result.1.now ≤ length file.now }
{
    let (bytes, after) = unpack(file, trace);
    let (size, after) = split_word(after);
    let (answer, after) = split(after, size);
    let right = is_right(rt, case, kind, split(trace, bytes).0, answer);
    (right, after)
}

fn sum_up(rt: &impl Print, cases: u64, wrong: u64) {
    let mut line = [0u8; 80];
    let to = put_decimal(&mut line, 0, cases);
    let to = put_bytes(&mut line, to, b" vectors, ");
    let to = put_decimal(&mut line, to, wrong);
    let to = put_bytes(&mut line, to, b" wrong\n");
    let _ = write_page(rt, &line, to);
}

fn run_all(rt: &impl Print, file: &[u8], trace: &mut [u8]) {
    let mut left = file;
    let mut cases = 0u64;
    let mut wrong = 0u64;
    while let Some((kind, after)) = left.split_first() {
        let (right, after) = run_case(rt, after, cases, *kind, trace);
        cases += 1;
        wrong += u64::from(!right);
        left = after;
    }
    sum_up(rt, cases, wrong);
}

// The length is a clause because a proof that counts so many zeros takes too long.
fn room() -> [u8; ROOM]
    ensures { 524288 ≡ length result }
{
    [0; ROOM]
}

fn main(rt: HostRuntime) {
    let mut input = rt.reader();
    let mut file = room();
    let n = read_full(&mut input, &mut file);
    let mut trace = [0u8; KEPT];
    run_all(&rt, &file[..n], &mut trace);
}
