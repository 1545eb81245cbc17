// What an event says is done: an arrival, a completion, a timeout; a stale one does nothing.

#![tactic(auto)]

ghost use Rattle.std.specs.Prelude.{◌≡◌};
ghost use Rattle.happen.specs.Happen.{whole_moment, joins, nothing};
ghost use Rattle.happen.specs.Happen.{said, arrives, completes, times_out, of_run, of_timeout, arrived, completed, timed_out};

use cluster::gpus::free_all;
use cluster::usage::is_running;
use decision_log::{Kind, Log, empty_log, first_log};
use eligible::chosen::Chosen;
use life::{end, fail, wait};
use line::keep::{is_waiting, keep_waiting};
use model::event::Event;
use model::job::Job;
use model::number::{bits_of, is_permitted};
use model::plan::Plan;
use model::sizes::JOBS;
use noted::after_join;
use room::ahead::Next;
use small::{onward, plus_one};
use starts::begin::amount;
use starts::timeout::queue_timeout;
use tables::{read, write};

// plan is the plan so far and log the decisions; ok: every number stored so far is permitted; goes: a pass follows.
#[derive(Clone, Copy)]
pub struct Moment {
    pub plan: Plan,
    pub log: Log,
    pub ok: bool,
    pub goes: bool,
}

// A moment without the plan, which is lent.
#[derive(Clone, Copy)]
pub struct Point {
    pub log: Log,
    pub ok: bool,
    pub goes: bool,
}

// Nothing more is done.
pub fn nothing() -> Point
    ensures { result ≡ nothing }
{
    Point {
        log: empty_log(),
        ok: true,
        goes: false,
    }
}

// The step's first decision, at the clock; a pass follows.
#[tactic(auto, unfolding(crate::specs::Happen::said))]
fn say(plan: &Plan, ok: bool, kind: Kind, job: u16, other: u16) -> Point
    ensures { whole_moment result plan.now ≡ said plan.now ok kind job other }
{
    Point {
        log: first_log(bits_of(plan.clock), kind, job, other),
        ok,
        goes: true,
    }
}

// The job waits at the queue's end.
#[tactic(auto, unfolding(crate::specs::Happen::joins))]
fn join_queue(plan: &mut Plan, id: u16, j: Job)
    ensures { plan.new ≡ joins plan.old id j }
{
    write(&mut plan.jobs, usize::from(id), j);
    write(&mut plan.queue, plan.waiting, id);
    plan.waiting = onward(plan.waiting, JOBS);
    plan.totals = after_join(plan.totals, plan.waiting as u64);
}

// A gang job with a timeout gets one at arrival + timeout.
#[tactic(auto, unfolding(crate::specs::Happen::arrives, crate::specs::Happen::joins))]
fn arrive(plan: &mut Plan, id: u16) -> Point
    ensures { whole_moment result plan.new ≡ arrives plan.old id }
{
    let j = wait(read(&plan.jobs, usize::from(id)), plan.clock);
    let a = Next {
        next: plan.next,
        ok: true,
    };
    let ahead = queue_timeout(&mut plan.events, a, id, j, j.ask.arrival);
    plan.next = ahead.next;
    join_queue(plan, id, j);
    say(plan, ahead.ok, Kind::Arrived, id, 0)
}

// What the job held is free.
#[tactic(auto, unfolding(crate::specs::Happen::completes))]
fn complete(plan: &mut Plan, id: u16) -> Point
    ensures { whole_moment result plan.new ≡ completes plan.old id }
{
    let j = read(&plan.jobs, usize::from(id));
    write(&mut plan.jobs, usize::from(id), end(j));
    free_all(&mut plan.gpus, plus_one(id));
    say(plan, true, Kind::Completed, id, amount(j.ask))
}

// The job has failed and leaves the queue; its waited has to be permitted.
#[tactic(auto, unfolding(crate::specs::Happen::times_out))]
fn time_out(plan: &mut Plan, id: u16) -> Point
    ensures { whole_moment result plan.new ≡ times_out plan.old id }
{
    let j = fail(read(&plan.jobs, usize::from(id)), plan.clock);
    write(&mut plan.jobs, usize::from(id), j);
    let Chosen { ids, count } = keep_waiting(&plan.jobs, plan.queue, plan.waiting);
    plan.queue = ids;
    plan.waiting = count;
    say(plan, is_permitted(j.waited), Kind::Failed, id, 0)
}

// The job runs, in the run that the event was queued for.
fn is_of_run(j: Job, generation: u32) -> bool
    ensures { result ≡ of_run j generation }
{
    is_running(j) && j.run == generation
}

// The job waits, in the wait that the event was queued for.
fn is_of_timeout(j: Job, generation: u32) -> bool
    ensures { result ≡ of_timeout j generation }
{
    is_waiting(j) && j.timeouts == generation
}

pub fn on_arrival(plan: &mut Plan, e: Event) -> Point
    ensures { whole_moment result plan.new ≡ arrived plan.old e }
{
    arrive(plan, e.job)
}

#[tactic(auto, unfolding(crate::specs::Happen::completed, crate::specs::Happen::stale))]
pub fn on_completion(plan: &mut Plan, e: Event) -> Point
    ensures { whole_moment result plan.new ≡ completed plan.old e }
{
    if is_of_run(read(&plan.jobs, usize::from(e.job)), e.generation) {
        complete(plan, e.job)
    } else {
        nothing()
    }
}

#[tactic(auto, unfolding(crate::specs::Happen::timed_out, crate::specs::Happen::stale))]
pub fn on_timeout(plan: &mut Plan, e: Event) -> Point
    ensures { whole_moment result plan.new ≡ timed_out plan.old e }
{
    if is_of_timeout(read(&plan.jobs, usize::from(e.job)), e.generation) {
        time_out(plan, e.job)
    } else {
        nothing()
    }
}
