// The state of a plan: clock, totals, queue, jobs and owners.

use crate::fields::{bits, number};
use crate::jobs::jobs;
use crate::lines::each;
use crate::owners::owner;
use model::plan::Plan;
use model::totals::Totals;
use text::put::{put_bytes, put_newline};

fn step(out: &mut [u8], at: usize, steps: u64, clock: f64) -> usize {
    let to = put_bytes(out, at, b"# step");
    let to = number(out, to, steps);
    let to = bits(out, to, clock);
    put_newline(out, to)
}

fn totals(out: &mut [u8], at: usize, t: &Totals) -> usize {
    let to = put_bytes(out, at, b"# totals");
    let to = number(out, to, t.evictions);
    let to = number(out, to, t.cuts);
    let to = number(out, to, t.penalised);
    let to = number(out, to, t.longest);
    let to = bits(out, to, t.added);
    put_newline(out, to)
}

fn queue(out: &mut [u8], at: usize, waiters: &[u16]) -> usize {
    let mut to = put_bytes(out, at, b"# queue");
    for waiter in waiters {
        to = number(out, to, u64::from(*waiter));
    }
    put_newline(out, to)
}

// All but the events.
pub fn state(out: &mut [u8], at: usize, plan: &Plan, steps: u64) -> usize {
    let waiting = plan.waiting.min(plan.queue.len());
    let to = step(out, at, steps, plan.clock);
    let to = totals(out, to, &plan.totals);
    let to = queue(out, to, &plan.queue[..waiting]);
    let to = jobs(out, to, plan);
    each(out, to, &plan.gpus, usize::from(plan.setting.gpus), owner)
}
