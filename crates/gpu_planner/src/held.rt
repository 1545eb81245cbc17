// The plan as a caller outside holds it: the same tables, with a number where the plan has an enum.

ghost use Rattle.std.specs.Prelude.{◌≡◌, map};
ghost use Rattle.gpu_planner.specs.Held.{state_number, state_of, kind_number, kind_of, held_job, job_in, held_event, event_in, held_plan, plan_in};

use model::event::{Event, EventKind};
use model::gpu::Gpu;
use model::job::{Ask, Job, JobState};
use model::plan::Plan;
use model::setting::Setting;
use model::sizes::{EVENTS, GPUS, JOBS};
use model::totals::Totals;
use std::array;

#[repr(C)]
#[derive(Clone, Copy)]
pub struct HeldJob {
    pub ask: Ask,
    pub state: u8,
    pub since: f64,
    pub start: f64,
    pub remaining: f64,
    pub waited: f64,
    pub evictions: u32,
    pub run: u32,
    pub timeouts: u32,
}

#[repr(C)]
#[derive(Clone, Copy)]
pub struct HeldEvent {
    pub time: f64,
    pub number: u64,
    pub kind: u8,
    pub job: u16,
    pub generation: u32,
}

#[repr(C)]
#[derive(Clone, Copy)]
pub struct HeldPlan {
    pub setting: Setting,
    pub gpus: [Gpu; GPUS],
    pub jobs: [HeldJob; JOBS],
    pub queue: [u16; JOBS],
    pub waiting: usize,
    pub events: [HeldEvent; EVENTS],
    pub next: u64,
    pub clock: f64,
    pub totals: Totals,
}

fn state_number(s: JobState) -> u8
    ensures { result ≡ state_number s }
{
    match s {
        JobState::Pending => 0,
        JobState::Waiting => 1,
        JobState::Placed => 2,
        JobState::Running => 3,
        JobState::Finished => 4,
        JobState::Failed => 5,
    }
}

// Any other number reads as pending.
fn state_of(n: u8) -> JobState
    ensures { result ≡ state_of n }
{
    match n {
        1 => JobState::Waiting,
        2 => JobState::Placed,
        3 => JobState::Running,
        4 => JobState::Finished,
        5 => JobState::Failed,
        _ => JobState::Pending,
    }
}

fn kind_number(k: EventKind) -> u8
    ensures { result ≡ kind_number k }
{
    match k {
        EventKind::Empty => 0,
        EventKind::Arrival => 1,
        EventKind::Completion => 2,
        EventKind::Timeout => 3,
    }
}

// Any other number reads as empty.
fn kind_of(n: u8) -> EventKind
    ensures { result ≡ kind_of n }
{
    match n {
        1 => EventKind::Arrival,
        2 => EventKind::Completion,
        3 => EventKind::Timeout,
        _ => EventKind::Empty,
    }
}

#[tactic(auto, unfolding(crate::specs::Held::held_job))]
fn held_job(j: Job) -> HeldJob
    ensures { result ≡ held_job j }
{
    HeldJob {
        ask: j.ask,
        state: state_number(j.state),
        since: j.since,
        start: j.start,
        remaining: j.remaining,
        waited: j.waited,
        evictions: j.evictions,
        run: j.run,
        timeouts: j.timeouts,
    }
}

#[tactic(auto, unfolding(crate::specs::Held::job_in))]
fn job_in(h: HeldJob) -> Job
    ensures { result ≡ job_in h }
{
    Job {
        ask: h.ask,
        state: state_of(h.state),
        since: h.since,
        start: h.start,
        remaining: h.remaining,
        waited: h.waited,
        evictions: h.evictions,
        run: h.run,
        timeouts: h.timeouts,
    }
}

#[tactic(auto, unfolding(crate::specs::Held::held_event))]
fn held_event(e: Event) -> HeldEvent
    ensures { result ≡ held_event e }
{
    HeldEvent {
        time: e.time,
        number: e.number,
        kind: kind_number(e.kind),
        job: e.job,
        generation: e.generation,
    }
}

#[tactic(auto, unfolding(crate::specs::Held::event_in))]
fn event_in(h: HeldEvent) -> Event
    ensures { result ≡ event_in h }
{
    Event {
        time: h.time,
        number: h.number,
        kind: kind_of(h.kind),
        job: h.job,
        generation: h.generation,
    }
}

#[tactic(auto, unfolding(crate::specs::Held::held_plan))]
pub fn held_plan(p: Plan) -> HeldPlan
    ensures { result ≡ held_plan p }
{
    let Plan {
        setting,
        gpus,
        jobs,
        queue,
        waiting,
        events,
        next,
        clock,
        totals,
    } = p;
    let jobs = array::from_fn(|i| held_job(jobs[i]));
    let events = array::from_fn(|i| held_event(events[i]));
    HeldPlan {
        setting,
        gpus,
        jobs,
        queue,
        waiting,
        events,
        next,
        clock,
        totals,
    }
}

#[tactic(auto, unfolding(crate::specs::Held::plan_in))]
pub fn plan_in(h: HeldPlan) -> Plan
    ensures { result ≡ plan_in h }
{
    let HeldPlan {
        setting,
        gpus,
        jobs,
        queue,
        waiting,
        events,
        next,
        clock,
        totals,
    } = h;
    let jobs = array::from_fn(|i| job_in(jobs[i]));
    let events = array::from_fn(|i| event_in(events[i]));
    Plan {
        setting,
        gpus,
        jobs,
        queue,
        waiting,
        events,
        next,
        clock,
        totals,
    }
}
