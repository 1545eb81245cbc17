// A job of the table: what the trace asks for it, and what steps change.

ghost use Rattle.std.specs.Prelude.{◌≡◌};
ghost use Rattle.model.specs.Job.{no_ask, new_job, no_job};

use crate::sizes::JOBS;
use tables::Entry;

// Placed: chosen in the present pass and not yet started; no plan between two steps holds it.
#[derive(Clone, Copy, PartialEq, Eq)]
pub enum JobState {
    Pending,
    Waiting,
    Placed,
    Running,
    Finished,
    Failed,
}

// What the trace says of a job, which no step changes. A priority p stands as p + 2^31, so that its order is that of the numbers.
// kind, site, tenant and profile are the number plus 1, or 0 for none.
#[repr(C)]
#[derive(Clone, Copy)]
pub struct Ask {
    pub arrival: f64,
    pub duration: f64,
    pub priority: u32,
    pub count: u8,
    pub memory: f64,
    pub kind: u16,
    pub site: u8,
    pub tenant: u8,
    pub gang: bool,
    pub nodes: u8,
    pub network: bool,
    pub timeout: f64,
    pub profile: u8,
    pub slices: u8,
}

// since: the clock when the job last began to wait; run and timeouts are its two generations.
#[derive(Clone, Copy)]
pub struct Job {
    pub ask: Ask,
    pub state: JobState,
    pub since: f64,
    pub start: f64,
    pub remaining: f64,
    pub waited: f64,
    pub evictions: u32,
    pub run: u32,
    pub timeouts: u32,
}

pub fn no_ask() -> Ask
    ensures { result ≡ no_ask }
{
    Ask {
        arrival: 0.0,
        duration: 0.0,
        priority: 0,
        count: 0,
        memory: 0.0,
        kind: 0,
        site: 0,
        tenant: 0,
        gang: false,
        nodes: 0,
        network: false,
        timeout: 0.0,
        profile: 0,
        slices: 0,
    }
}

// A job that has not arrived yet, with its whole duration before it.
#[tactic(auto, unfolding(crate::specs::Job::new_job))]
pub fn new_job(ask: Ask) -> Job
    ensures { result ≡ new_job ask }
{
    Job {
        ask,
        state: JobState::Pending,
        since: 0.0,
        start: 0.0,
        remaining: ask.duration,
        waited: 0.0,
        evictions: 0,
        run: 0,
        timeouts: 0,
    }
}

impl Entry for Job {
    ghost none = { no_job };

    #[tactic(auto, unfolding(crate::specs::Job::no_job))]
    fn none() -> Job {
        new_job(no_ask())
    }
}
