// The shortest nonempty prefix of the candidates whose leaving makes a job placeable.

ghost use Rattle.std.specs.Prelude.{◌≡◌};
ghost use Rattle.eligible.specs.Chosen.{list_of};
ghost use Rattle.preemptive.specs.Prefix.{whole_preempted, made, preempted};

use crate::candidate::candidates;
use cluster::gpus::free_all;
use eligible::chosen::Chosen;
use life::evict;
use model::gpu::Gpu;
use model::job::Job;
use model::setting::Setting;
use model::sizes::{GPUS, JOBS};
use resource::cause::is_placeable;
use small::plus_one;
use tables::{read, write};

// The victims are the first count of those numbered; count is 0 where no prefix helps, and then the tables are as they were.
#[derive(Clone, Copy)]
pub struct Preempted {
    pub gpus: [Gpu; GPUS],
    pub jobs: [Job; JOBS],
    pub victims: [u16; JOBS],
    pub count: usize,
}

// The same without the tables, which are lent.
#[derive(Clone, Copy)]
pub struct Way {
    pub victims: [u16; JOBS],
    pub count: usize,
}

// One candidate after the other leaves, on copies of the tables, until the job is placeable.
fn make_room(
    setting: Setting,
    clock: f64,
    gpus: &mut [Gpu; GPUS],
    jobs: &mut [Job; JOBS],
    j: Job,
    found: Chosen,
) -> Way
    ensures { whole_preempted result gpus.new jobs.new
        ≡ made setting clock gpus.old jobs.old j found.ids (list_of found) }
{
    let mut free = *gpus;
    let mut left = *jobs;
    for (k, v) in found.ids[..found.count.min(JOBS)].iter().enumerate() {
        let i = usize::from(*v);
        free_all(&mut free, plus_one(*v));
        let victim = evict(read(&left, i), clock);
        write(&mut left, i, victim);
        if is_placeable(setting, &free, &left, j) {
            *gpus = free;
            *jobs = left;
            return Way {
                victims: found.ids,
                count: k + 1,
            };
        }
    }
    Way {
        victims: found.ids,
        count: 0,
    }
}

pub fn preempt(
    setting: Setting,
    clock: f64,
    gpus: &mut [Gpu; GPUS],
    jobs: &mut [Job; JOBS],
    j: Job,
) -> Way
    ensures { whole_preempted result gpus.new jobs.new
        ≡ preempted setting clock gpus.old jobs.old j }
{
    make_room(
        setting,
        clock,
        gpus,
        jobs,
        j,
        candidates(setting, jobs, j.ask),
    )
}
