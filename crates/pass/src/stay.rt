// Most waiting jobs are seen to stay at one look: not placeable even if every candidate for them left.

ghost use Rattle.std.specs.Prelude.{◌≡◌};
ghost use Rattle.eligible.specs.Chosen.{chosen};
ghost use Rattle.pass.specs.Rank.{ranks_of, low_at};
ghost use Rattle.pass.specs.Stay.{may_be_free, reachable, reachables, is_short, kept_charge, used_at_least, is_over, whole_stays, stay};

use crate::rank::low_ranks;
use choice::choose::keys_for;
use choice::why::why_not;
use cluster::gpus::with_owner;
use cluster::usage::charge_to;
use eligible::chosen::{Chosen, those};
use eligible::rule::eligible_gpu;
use line::keep::is_waiting;
use model::gpu::Gpu;
use model::job::{Ask, Job};
use model::setting::Setting;
use model::sizes::{GPUS, JOBS, NODES};
use preemptive::candidate::is_candidate;
use resource::cause::resource_cause;
use tables::read;

// Whether a GPU is nobody's, or would be if every candidate left.
fn may_be_free(aware: bool, jobs: &[Job; JOBS], ask: Ask, owner: u16) -> bool
    ensures { result ≡ may_be_free aware jobs.now ask owner }
{
    owner == 0 || is_candidate(aware, ask, read(jobs, usize::from(owner - 1)))
}

// Whether the job could have the GPU if every candidate left.
#[tactic(auto, unfolding(crate::specs::Stay::reachable))]
fn is_reachable(aware: bool, sites: [u8; NODES], jobs: &[Job; JOBS], ask: Ask, g: Gpu) -> bool
    ensures { result ≡ reachable aware sites jobs.now ask g }
{
    may_be_free(aware, jobs, ask, g.owner)
        && eligible_gpu(ask, read(&sites, usize::from(g.node)), with_owner(g, 0))
}

// Whether the rank of a GPU is low enough for the job.
fn is_low(ranks: &[u64], i: usize, ask: Ask) -> bool
    ensures { result ≡ low_at ranks.now ask.priority i }
{
    ranks
        .get(i)
        .is_some_and(|rank| *rank <= u64::from(ask.priority))
}

// Those of the first n GPUs that the job could have if every candidate left.
fn within_reach(
    aware: bool,
    gpus: &[Gpu; GPUS],
    n: usize,
    sites: [u8; NODES],
    jobs: &[Job; JOBS],
    ranks: &[u64; GPUS],
    ask: Ask,
) -> Chosen
    requires { ranks.now ≡ ranks_of gpus.now jobs.now n }
    ensures { result ≡ chosen (reachables aware gpus.now n sites jobs.now ask) }
{
    those(
        n,
        |i| is_low(ranks, i, ask) && is_reachable(aware, sites, jobs, ask, read(gpus, i)),
    )
}

// What a job costs the tenant now, also if every candidate left.
#[tactic(auto, unfolding(crate::specs::Stay::kept_charge))]
fn kept_charge(aware: bool, ask: Ask, j: Job) -> u32
    ensures { result ≡ kept_charge aware ask j }
{
    if is_candidate(aware, ask, j) {
        0
    } else {
        charge_to(ask.tenant, j)
    }
}

// What the job's tenant would use of its quota if every candidate left.
fn used_at_least(aware: bool, n: usize, jobs: &[Job; JOBS], ask: Ask) -> u64
    ensures { result ≡ used_at_least aware n jobs.now ask }
{
    let mut sum = 0;
    for j in &jobs[..n.min(JOBS)] {
        sum += u64::from(kept_charge(aware, ask, *j));
    }
    sum
}

// Over its tenant's quota even then.
fn is_over(setting: Setting, jobs: &[Job; JOBS], ask: Ask) -> bool
    ensures { result ≡ is_over setting jobs.now ask }
{
    if ask.tenant == 0 {
        false
    } else {
        let kept = read(&setting.quotas, (ask.tenant - 1) as usize);
        let used = used_at_least(setting.options.aware, setting.jobs as usize, jobs, ask);
        kept != 0 && kept.saturating_sub(used) <= ask.count as u64
    }
}

// Too few GPUs even then.
fn is_short(
    setting: Setting,
    gpus: &[Gpu; GPUS],
    jobs: &[Job; JOBS],
    ranks: &[u64; GPUS],
    ask: Ask,
) -> bool
    requires { ranks.now ≡ ranks_of gpus.now jobs.now setting.gpus }
    ensures { result ≡ is_short setting gpus.now jobs.now ask }
{
    let n = setting.gpus as usize;
    if low_ranks(ranks, n, ask.priority as u64) < ask.count as usize {
        true
    } else {
        let found = within_reach(
            setting.options.aware,
            gpus,
            n,
            setting.sites,
            jobs,
            ranks,
            ask,
        );
        why_not(found, keys_for(gpus, ask), ask).is_some()
    }
}

#[tactic(auto, unfolding(crate::specs::Stay::whole_stays))]
fn whole_stays(
    setting: Setting,
    gpus: &[Gpu; GPUS],
    jobs: &[Job; JOBS],
    ranks: &[u64; GPUS],
    ask: Ask,
) -> bool
    requires { ranks.now ≡ ranks_of gpus.now jobs.now setting.gpus }
    ensures { result ≡ whole_stays setting gpus.now jobs.now ask }
{
    is_short(setting, gpus, jobs, ranks, ask) || is_over(setting, jobs, ask)
}

// The visit of the job would change nothing.
#[tactic(auto, unfolding(crate::specs::Stay::stay))]
pub fn stays(
    setting: Setting,
    gpus: &[Gpu; GPUS],
    jobs: &[Job; JOBS],
    ranks: &[u64; GPUS],
    id: u16,
) -> bool
    requires { ranks.now ≡ ranks_of gpus.now jobs.now setting.gpus }
    ensures { result ≡ stay setting gpus.now jobs.now id }
{
    let j = read(jobs, usize::from(id));
    if !is_waiting(j) {
        true
    } else if j.ask.profile == 0 {
        whole_stays(setting, gpus, jobs, ranks, j.ask)
    } else {
        resource_cause(setting, gpus, j).is_some()
    }
}
