// The event room after a load: the jobs' arrivals, in job order.

ghost use Rattle.std.specs.Prelude.{◌≡◌, ◌<◌};
ghost use Rattle.model.specs.Sizes as Sizes;
ghost use Rattle.loader.specs.Arrivals.{arrival_of, arrivals_over};

use model::event::{Event, EventKind};
use model::job::Job;
use model::sizes::{EVENTS, JOBS};

fn arrival_of(job: Job, i: usize) -> Event
    requires { i < Sizes.jobs }
    ensures { result ≡ arrival_of i job }
{
    Event {
        time: job.ask.arrival,
        number: i as u64,
        kind: EventKind::Arrival,
        job: i as u16,
        generation: 0,
    }
}

// The arrivals of the first n jobs, each in the entry of its job's number; the other entries stay as they are.
pub fn write_arrivals(room: &mut [Event; EVENTS], jobs: &[Job; JOBS], n: usize)
    ensures { room.new ≡ arrivals_over room.old jobs.now n }
{
    for i in 0..n.min(JOBS) {
        room[i] = arrival_of(jobs[i], i);
    }
}
