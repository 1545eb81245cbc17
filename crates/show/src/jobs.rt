// A line for each job: what steps have made of it, and whether it is placeable now.

use crate::fields::{bits, number};
use model::job::{Job, JobState};
use model::plan::Plan;
use planner::{NoSuchJob, can_place};
use text::put::{put_bytes, put_newline};

// The state, then waiting-since of a waiting job and the start of a running one.
fn state(out: &mut [u8], at: usize, j: &Job) -> usize {
    match j.state {
        JobState::Pending => put_bytes(out, at, b" pending - -"),
        JobState::Waiting => {
            let to = put_bytes(out, at, b" waiting");
            let to = bits(out, to, j.since);
            put_bytes(out, to, b" -")
        }
        JobState::Placed => put_bytes(out, at, b" placed - -"),
        JobState::Running => {
            let to = put_bytes(out, at, b" running -");
            bits(out, to, j.start)
        }
        JobState::Finished => put_bytes(out, at, b" finished - -"),
        JobState::Failed => put_bytes(out, at, b" failed - -"),
    }
}

fn placeable(out: &mut [u8], at: usize, answer: Result<bool, NoSuchJob>) -> usize {
    match answer {
        Ok(true) => put_bytes(out, at, b" yes"),
        Ok(false) => put_bytes(out, at, b" no"),
        Err(NoSuchJob) => put_bytes(out, at, b" refused 13"),
    }
}

fn job(out: &mut [u8], at: usize, i: usize, j: &Job, answer: Result<bool, NoSuchJob>) -> usize {
    let to = put_bytes(out, at, b"# job");
    let to = number(out, to, i as u64);
    let to = state(out, to, j);
    let to = bits(out, to, j.remaining);
    let to = bits(out, to, j.waited);
    let to = number(out, to, u64::from(j.evictions));
    let to = number(out, to, u64::from(j.run));
    let to = number(out, to, u64::from(j.timeouts));
    let to = placeable(out, to, answer);
    put_newline(out, to)
}

pub fn jobs(out: &mut [u8], at: usize, plan: &Plan) -> usize {
    let n = usize::from(plan.setting.jobs);
    let mut to = at;
    for (i, j) in plan.jobs.iter().enumerate().take(n) {
        to = job(out, to, i, j, can_place(*plan, i));
    }
    to
}
