// The order of the waiting queue.

ghost use Rattle.std.specs.Prelude.{◌≡◌, map};
ghost use Rattle.cluster.specs.Queue.{priority_of, sorted_queue};

use model::job::Job;
use model::number::bits_of;
use model::sizes::JOBS;
use order::sort_front;
use std::array;

pub fn priorities(jobs: &[Job; JOBS]) -> [u64; JOBS]
    ensures { result ≡ map priority_of jobs.now }
{
    array::from_fn(|i| u64::from(jobs[i].ask.priority))
}

// Higher priority first, then earlier arrival; equals keep their order.
pub fn sort_queue(jobs: &[Job; JOBS], queue: [u16; JOBS], n: usize) -> [u16; JOBS]
    ensures { result ≡ sorted_queue jobs.now queue n }
{
    // one alone stands as it is
    if n < 2 {
        queue
    } else {
        let arrivals = array::from_fn(|i| bits_of(jobs[i].ask.arrival));
        sort_front(true, &priorities(jobs), &arrivals, queue, n)
    }
}
