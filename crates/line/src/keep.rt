// Who waits, and the queue without those who left it.

ghost use Rattle.std.specs.Prelude.{◌≡◌};
ghost use Rattle.eligible.specs.Chosen.{chosen};
ghost use Rattle.line.specs.Keep.{waits, still_waiting};

use eligible::chosen::{Chosen, kept};
use model::job::{Job, JobState};
use model::sizes::JOBS;
use tables::read;

pub fn is_waiting(j: Job) -> bool
    ensures { result ≡ waits j }
{
    matches!(j.state, JobState::Waiting)
}

// Of the first n of the queue those that wait, in their order.
pub fn keep_waiting(jobs: &[Job; JOBS], queue: [u16; JOBS], n: usize) -> Chosen
    ensures { result ≡ chosen (still_waiting jobs.now queue n) }
{
    let line = Chosen {
        ids: queue,
        count: n,
    };
    kept(line, |id| is_waiting(read(jobs, usize::from(id))))
}
