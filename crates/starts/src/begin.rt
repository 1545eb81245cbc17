// The placed jobs start, in the order of placing.

ghost use Rattle.std.specs.Prelude.{◌≡◌, take, ◌&&◌};
ghost use Rattle.model.specs.Number.{permitted};
ghost use Rattle.starts.specs.Begin.{no_placing, amount, also_next, whole_begun, begun, begun_all};

use decision_log::{Kind, Log, tell};
use life::{completion_at, multiplier_of, start, start_at};
use model::event::{Event, EventKind};
use model::job::{Ask, Job};
use model::number::{bits_of, is_permitted};
use model::setting::Options;
use model::sizes::{EVENTS, JOBS};
use model::totals::Totals;
use noted::after_start;
use room::ahead::{Ahead, Next, queue_event};
use tables::{Entry, read, write};

// A job placed in the pass: whether a GPU was cut for it, and whether it is penalised.
#[derive(Clone, Copy)]
pub struct Placing {
    pub job: u16,
    pub cut: bool,
    pub penalised: bool,
}

#[tactic(auto, unfolding(crate::specs::Begin::no_placing))]
impl Entry for Placing {
    ghost none = { no_placing };

    fn none() -> Placing {
        Placing {
            job: 0,
            cut: false,
            penalised: false,
        }
    }
}

// What starts change.
#[derive(Clone, Copy)]
pub struct Begun {
    pub jobs: [Job; JOBS],
    pub ahead: Ahead,
    pub totals: Totals,
    pub log: Log,
}

// The same without the tables of jobs and events, which are lent.
#[derive(Clone, Copy)]
pub struct Beginning {
    pub ahead: Next,
    pub totals: Totals,
    pub log: Log,
}

// GPUs or slices: what a start and a completion tell.
pub fn amount(ask: Ask) -> u16
    ensures { result ≡ amount ask }
{
    u16::from(if ask.profile == 0 {
        ask.count
    } else {
        ask.slices
    })
}

fn also(a: Next, good: bool) -> Next
    ensures { result ≡ also_next a good }
{
    Next {
        ok: a.ok && good,
        ..a
    }
}

// The start, waited and added runtime that a start stores.
fn are_permitted(at: f64, waited: f64, added: f64) -> bool
    ensures { result ≡ ((permitted at && permitted waited) && permitted added) }
{
    is_permitted(at) && is_permitted(waited) && is_permitted(added)
}

#[tactic(auto, unfolding(crate::specs::Begin::begun))]
fn begin(
    jobs: &mut [Job; JOBS],
    room: &mut [Event; EVENTS],
    b: Beginning,
    options: Options,
    clock: f64,
    p: Placing,
) -> Beginning
    ensures { whole_begun result jobs.new room.new
        ≡ begun options clock (whole_begun b jobs.old room.old) p }
{
    let i = usize::from(p.job);
    let j = read(jobs, i);
    let at = start_at(j, clock, options, p.cut);
    let multiplier = multiplier_of(options, p.penalised);
    let s = start(j, at);
    let totals = after_start(b.totals, p.cut, p.penalised, j.remaining, multiplier);
    let good = are_permitted(at, s.waited, totals.added);
    let end = completion_at(j, at, multiplier);
    let queued = queue_event(room, b.ahead, end, EventKind::Completion, p.job, s.run);
    write(jobs, i, s);
    Beginning {
        ahead: also(queued, good),
        totals,
        log: tell(b.log, bits_of(at), Kind::Started, p.job, amount(j.ask)),
    }
}

pub fn begin_all(
    jobs: &mut [Job; JOBS],
    room: &mut [Event; EVENTS],
    b: Beginning,
    options: Options,
    clock: f64,
    placed: [Placing; JOBS],
    count: usize,
) -> Beginning
    ensures { whole_begun result jobs.new room.new
        ≡ begun_all options clock (whole_begun b jobs.old room.old) (take count placed) }
{
    let mut work = b;
    for p in &placed[..count.min(JOBS)] {
        work = begin(jobs, room, work, options, clock, *p);
    }
    work
}
