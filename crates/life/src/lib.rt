// The small changes of one job: it waits, fails, ends, is evicted, is placed, starts; and the numbers that they store.

#![tactic(auto)]

ghost use Rattle.std.specs.Prelude.{◌≡◌};
ghost use Rattle.life.specs.Life.{raised, timed, run_seconds, left_after, delayed, start_at, multiplier_of, completion_at};
ghost use Rattle.life.specs.Life.{waits, fails, ends, evicted, placed, started};

use model::job::{Ask, Job, JobState};
use model::setting::Options;

fn raise(generation: u32, yes: bool) -> u32
    ensures { result ≡ raised generation yes }
{
    if yes {
        generation.wrapping_add(1)
    } else {
        generation
    }
}

// A gang job with a timeout.
pub fn is_timed(ask: Ask) -> bool
    ensures { result ≡ timed ask }
{
    ask.gang && 0.0 < ask.timeout
}

// At its arrival a job waits from the clock on.
#[tactic(auto, unfolding(crate::specs::Life::waits))]
pub fn wait(j: Job, clock: f64) -> Job
    ensures { result ≡ waits j clock }
{
    Job {
        state: JobState::Waiting,
        since: clock,
        timeouts: raise(j.timeouts, is_timed(j.ask)),
        ..j
    }
}

#[tactic(auto, unfolding(crate::specs::Life::fails))]
pub fn fail(j: Job, clock: f64) -> Job
    ensures { result ≡ fails j clock }
{
    Job {
        state: JobState::Failed,
        waited: j.waited + (clock - j.since),
        ..j
    }
}

#[tactic(auto, unfolding(crate::specs::Life::ends))]
pub fn end(j: Job) -> Job
    ensures { result ≡ ends j }
{
    Job {
        state: JobState::Finished,
        ..j
    }
}

// How long the job has run by now; a start that is still to come counts as none.
fn run_seconds(j: Job, clock: f64) -> f64
    ensures { result ≡ run_seconds j clock }
{
    if clock < j.start {
        0.0
    } else {
        clock - j.start
    }
}

fn left_after(j: Job, clock: f64) -> f64
    ensures { result ≡ left_after j clock }
{
    let left = j.remaining - run_seconds(j, clock);
    if 0.0 < left { left } else { 0.0 }
}

#[tactic(auto, unfolding(crate::specs::Life::evicted))]
pub fn evict(j: Job, clock: f64) -> Job
    ensures { result ≡ evicted j clock }
{
    Job {
        state: JobState::Waiting,
        since: clock,
        remaining: left_after(j, clock),
        evictions: j.evictions.wrapping_add(1),
        ..j
    }
}

#[tactic(auto, unfolding(crate::specs::Life::placed))]
pub fn place(j: Job) -> Job
    ensures { result ≡ placed j }
{
    Job {
        state: JobState::Placed,
        ..j
    }
}

// The clock, later by the reconfiguration seconds after a cut.
fn delayed(clock: f64, options: Options, cut: bool) -> f64
    ensures { result ≡ delayed clock options cut }
{
    if cut { clock + options.seconds } else { clock }
}

// The start: after a reconfiguration, and then after the restart penalty of a job that was evicted before.
pub fn start_at(j: Job, clock: f64, options: Options, cut: bool) -> f64
    ensures { result ≡ start_at j clock options cut }
{
    let start = delayed(clock, options, cut);
    if j.evictions == 0 {
        start
    } else {
        start + options.penalty
    }
}

pub fn multiplier_of(options: Options, penalised: bool) -> f64
    ensures { result ≡ multiplier_of options penalised }
{
    if penalised { options.multiplier } else { 1.0 }
}

// A product and a sum, each rounded once.
pub fn completion_at(j: Job, start: f64, multiplier: f64) -> f64
    ensures { result ≡ completion_at j start multiplier }
{
    start + j.remaining * multiplier
}

#[tactic(auto, unfolding(crate::specs::Life::started))]
pub fn start(j: Job, at: f64) -> Job
    ensures { result ≡ started j at }
{
    Job {
        state: JobState::Running,
        start: at,
        waited: j.waited + (at - j.since),
        run: j.run.wrapping_add(1),
        timeouts: raise(j.timeouts, j.ask.gang),
        ..j
    }
}
