// A trace stepped to its end, with the state of the plan after each step.

use crate::entries::tables;
use crate::events::events;
use crate::sheet::{Asked, Sheet, close, hand_on, new_sheet};
use crate::state::state;
use model::plan::Plan;
use planner::{StepRefusal, WORDS};
use text::page::Lost;
use text::told::{Last, put_decisions, put_last};

// What follows the lines before a place: the state and, asked for, the events. All tables full, the lines before and the state are
// under 50,000 bytes and the events under 55,000: each of the two fits the page. The events are handed on whether the state was lost or not.
fn show_state(
    rt: &impl Print,
    out: &mut [u8],
    at: usize,
    sheet: Sheet,
    plan: &Plan,
    steps: u64,
    queued: bool,
) -> Sheet {
    let to = state(out, at, plan, steps);
    let sheet = hand_on(rt, out, to, sheet);
    if !queued {
        return sheet;
    }
    let to = events(out, 0, &plan.events);
    hand_on(rt, out, to, sheet)
}

fn show_last(rt: &impl Print, out: &mut [u8], sheet: Sheet, last: Last) -> Result<(), Lost> {
    let to = put_last(out, 0, last);
    let sheet = hand_on(rt, out, to, sheet);
    close(rt, out, sheet, last)
}

// A refused step has changed nothing, which the state shows once more.
fn show_refused(
    rt: &impl Print,
    out: &mut [u8],
    sheet: Sheet,
    plan: &Plan,
    steps: u64,
    queued: bool,
    number: u64,
) -> Result<(), Lost> {
    let last = Last::StepRefused { number };
    let to = put_last(out, 0, last);
    let sheet = show_state(rt, out, to, sheet, plan, steps, queued);
    close(rt, out, sheet, last)
}

fn run(
    rt: &impl Print,
    loaded: Plan,
    out: &mut [u8],
    first: Sheet,
    queued: bool,
) -> Result<(), Lost> {
    let mut words = [0u64; WORDS];
    let mut plan = loaded;
    let mut sheet = first;
    for steps in 0..u64::MAX {
        let stepped = planner::step(plan, &mut words);
        plan = stepped.plan;
        match stepped.answer {
            Ok(n) => {
                let to = put_decisions(out, 0, &words, n);
                sheet = show_state(rt, out, to, sheet, &plan, steps + 1, queued);
            }
            Err(StepRefusal::NoEvent) => return show_last(rt, out, sheet, Last::End { steps }),
            Err(StepRefusal::NotPermitted) => {
                return show_refused(rt, out, sheet, &plan, steps, queued, 12);
            }
            Err(StepRefusal::ShortBuffer) => {
                return show_refused(rt, out, sheet, &plan, steps, queued, 10);
            }
        }
        if matches!(sheet, Sheet::Lost) {
            return Err(Lost);
        }
    }
    Err(Lost)
}

// All lines of a trace. What could not be written is looked at after each step, and before the last line.
pub fn show_trace(rt: &impl Print, bytes: &[u8], out: &mut [u8], asked: Asked) -> Result<(), Lost> {
    let loaded = planner::load(bytes);
    let to = tables(out, 0, &loaded.plan);
    let sheet = show_state(rt, out, to, new_sheet(asked), &loaded.plan, 0, asked.events);
    match loaded.answer {
        Ok(()) => run(rt, loaded.plan, out, sheet, asked.events),
        Err(refusal) => {
            let number = refusal.fault as u64;
            let place = refusal.at as u64;
            show_last(rt, out, sheet, Last::LoadRefused { number, place })
        }
    }
}
