// Timeouts of gang jobs that wait.

ghost use Rattle.std.specs.Prelude.{◌≡◌, take};
ghost use Rattle.room.specs.Ahead.{whole_ahead};
ghost use Rattle.starts.specs.Timeout.{timeout_queued, timeouts_queued};

use life::is_timed;
use model::event::{Event, EventKind};
use model::job::Job;
use model::sizes::{EVENTS, JOBS};
use room::ahead::{Next, queue_event};
use tables::read;

// A gang job with a timeout above 0 gets one, a full period from the time given, under its present generation.
#[tactic(auto, unfolding(crate::specs::Timeout::timeout_queued))]
pub fn queue_timeout(room: &mut [Event; EVENTS], a: Next, id: u16, j: Job, from: f64) -> Next
    ensures { whole_ahead result room.new ≡ timeout_queued (whole_ahead a room.old) id j from }
{
    if is_timed(j.ask) {
        queue_event(
            room,
            a,
            from + j.ask.timeout,
            EventKind::Timeout,
            id,
            j.timeouts,
        )
    } else {
        a
    }
}

// In the order of eviction.
pub fn queue_timeouts(
    room: &mut [Event; EVENTS],
    a: Next,
    clock: f64,
    jobs: &[Job; JOBS],
    victims: [u16; JOBS],
    count: usize,
) -> Next
    ensures { whole_ahead result room.new
        ≡ timeouts_queued clock jobs.now (whole_ahead a room.old) (take count victims) }
{
    let mut ahead = a;
    for v in &victims[..count.min(JOBS)] {
        ahead = queue_timeout(room, ahead, *v, read(jobs, usize::from(*v)), clock);
    }
    ahead
}
