// The waiting line during a pass: victims join its end, and each join is noted.

ghost use Rattle.std.specs.Prelude.{◌≡◌, take};
ghost use Rattle.laws.specs.Search.{has};
ghost use Rattle.line.specs.Line.{new_line, joined, joined_all};

use decision_log::{Kind, Log, tell};
use model::job::Job;
use model::number::{bits_of, is_permitted};
use model::sizes::JOBS;
use model::totals::Totals;
use noted::after_eviction;
use small::onward;
use tables::{put, read};

// queue holds waiting jobs' numbers; victims those of this pass, evicted of them; ok: every number stored so far is permitted.
#[derive(Clone, Copy)]
pub struct Line {
    pub queue: [u16; JOBS],
    pub waiting: usize,
    pub victims: [u16; JOBS],
    pub evicted: usize,
    pub totals: Totals,
    pub log: Log,
    pub ok: bool,
}

// The line as a pass begins: no victims yet.
#[tactic(auto, unfolding(crate::specs::Line::new_line, laws::specs::Lists::pad))]
pub fn new_line(queue: [u16; JOBS], waiting: usize, totals: Totals, log: Log, ok: bool) -> Line
    ensures { result ≡ new_line queue waiting totals log ok }
{
    Line {
        queue,
        waiting,
        victims: [0; JOBS],
        evicted: 0,
        totals,
        log,
        ok,
    }
}

// v, whose remaining is what is left of it, made way for the job by.
#[tactic(auto, unfolding(crate::specs::Line::joined))]
fn join(line: Line, clock: f64, v: u16, by: u16, remaining: f64) -> Line
    ensures { result ≡ joined clock by line v remaining }
{
    let waiting = onward(line.waiting, JOBS);
    Line {
        queue: put(line.queue, line.waiting, v),
        waiting,
        victims: put(line.victims, line.evicted, v),
        evicted: onward(line.evicted, JOBS),
        totals: after_eviction(line.totals, waiting as u64),
        log: tell(line.log, bits_of(clock), Kind::Evicted, v, by),
        ok: line.ok && is_permitted(remaining),
    }
}

// The first count of those numbered join, in their order; jobs is the table after they were evicted.
pub fn join_all(
    line: Line,
    clock: f64,
    jobs: &[Job; JOBS],
    ids: [u16; JOBS],
    count: usize,
    by: u16,
) -> Line
    ensures { result ≡ joined_all clock jobs.now by line (take count ids) }
{
    let mut after = line;
    for v in &ids[..count.min(JOBS)] {
        let j = read(jobs, usize::from(*v));
        after = join(after, clock, *v, by, j.remaining);
    }
    after
}

// Whether a job is among the first count of those numbered.
pub fn is_among(ids: [u16; JOBS], count: usize, id: u16) -> bool
    ensures { result ≡ has id (take count ids) }
{
    ids[..count.min(JOBS)].contains(&id)
}
