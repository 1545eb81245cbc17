// Cases of kind 2: a whole plan, by the lines that have to be printed.

use model::plan::Plan;
use planner::{StepRefusal, WORDS};
use text::page::write_page;
use text::put::{put_bytes, put_decimal};
use text::told::{Last, put_decisions, put_last};

// What came next was not what the expected lines have there; so many of their bytes were still to be met.
#[derive(Clone, Copy)]
struct Wrong {
    left: usize,
}

// The lines against the expected ones that are still to be met; answers what is left of those.
fn meet<'a>(expected: &'a [u8], lines: &[u8]) -> Result<&'a [u8], Wrong> {
    expected.strip_prefix(lines).ok_or(Wrong {
        left: expected.len(),
    })
}

// The last line has to be the last of the expected ones too.
fn meet_last(expected: &[u8], out: &mut [u8], last: Last) -> Result<(), Wrong> {
    let to = put_last(out, 0, last);
    let left = meet(expected, &out[..to])?.len();
    if left > 0 {
        return Err(Wrong { left });
    }
    Ok(())
}

fn run(loaded: Plan, expected: &[u8], out: &mut [u8]) -> Result<(), Wrong> {
    let mut words = [0u64; WORDS];
    let mut plan = loaded;
    let mut left = expected;
    for steps in 0..u64::MAX {
        let stepped = planner::step(plan, &mut words);
        plan = stepped.plan;
        match stepped.answer {
            Ok(n) => {
                let to = put_decisions(out, 0, &words, n);
                left = meet(left, &out[..to])?;
            }
            Err(StepRefusal::NoEvent) => return meet_last(left, out, Last::End { steps }),
            Err(StepRefusal::NotPermitted) => {
                return meet_last(left, out, Last::StepRefused { number: 12 });
            }
            Err(StepRefusal::ShortBuffer) => {
                return meet_last(left, out, Last::StepRefused { number: 10 });
            }
        }
    }
    meet_last(left, out, Last::End { steps: u64::MAX })
}

fn planned(trace: &[u8], expected: &[u8], out: &mut [u8]) -> Result<(), Wrong> {
    let loaded = planner::load(trace);
    match loaded.answer {
        Ok(()) => run(loaded.plan, expected, out),
        Err(refusal) => {
            let number = refusal.fault as u64;
            let place = refusal.at as u64;
            meet_last(expected, out, Last::LoadRefused { number, place })
        }
    }
}

fn report(rt: &impl Print, case: u64, bytes: usize) {
    let mut line = [0u8; 160];
    let to = put_bytes(&mut line, 0, b"case ");
    let to = put_decimal(&mut line, to, case);
    let to = put_bytes(
        &mut line,
        to,
        b": the plan is not the expected one after its first ",
    );
    let to = put_decimal(&mut line, to, bytes as u64);
    let to = put_bytes(&mut line, to, b" bytes\n");
    let _ = write_page(rt, &line, to);
}

// Whether the plan of a trace is printed as expected.
pub fn is_right(rt: &impl Print, case: u64, trace: &[u8], expected: &[u8]) -> bool {
    let mut out = io::large_buffer();
    match planned(trace, expected, &mut out) {
        Ok(()) => true,
        Err(wrong) => {
            report(rt, case, expected.len().saturating_sub(wrong.left));
            false
        }
    }
}
