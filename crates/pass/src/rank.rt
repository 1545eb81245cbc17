// The rank of each GPU: whoever has at least as high a priority could have it, as far as its owner goes.

ghost use Rattle.std.specs.Prelude.{◌≡◌};
ghost use Rattle.pass.specs.Rank.{holder_rank, rank_of, ranks_of, low_ranks};

use cluster::usage::is_running;
use model::gpu::Gpu;
use model::job::Job;
use model::sizes::{GPUS, JOBS};
use tables::read;

// Above every priority.
const BARRED: u64 = 0x1_0000_0000;

// One more than the priority of a job that may have to make way.
#[tactic(auto, unfolding(crate::specs::Rank::holder_rank))]
fn holder_rank(j: Job) -> u64
    ensures { result ≡ holder_rank j }
{
    if is_running(j) && j.evictions < 3 {
        u64::from(j.ask.priority) + 1
    } else {
        BARRED
    }
}

// 0 where nobody owns the GPU.
#[tactic(auto, unfolding(crate::specs::Rank::rank_of))]
fn rank_of(jobs: &[Job; JOBS], owner: u16) -> u64
    ensures { result ≡ rank_of jobs.now owner }
{
    if owner == 0 {
        0
    } else {
        holder_rank(read(jobs, usize::from(owner - 1)))
    }
}

// Of the first n GPUs.
pub fn ranks_of(gpus: &[Gpu; GPUS], jobs: &[Job; JOBS], n: usize) -> [u64; GPUS]
    ensures { result ≡ ranks_of gpus.now jobs.now n }
{
    let mut ranks = [0; GPUS];
    for (i, g) in gpus[..n.min(GPUS)].iter().enumerate() {
        ranks[i] = rank_of(jobs, g.owner);
    }
    ranks
}

// How many of the first n ranks are at most a priority.
pub fn low_ranks(ranks: &[u64], n: usize, priority: u64) -> usize
    ensures { result ≡ low_ranks ranks.now n priority }
{
    ranks[..n.min(ranks.len())]
        .iter()
        .filter(|rank| **rank <= priority)
        .count()
}
