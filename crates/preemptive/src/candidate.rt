// The candidates: running jobs that may have to make way for a job, in their order.

ghost use Rattle.std.specs.Prelude.{◌≡◌};
ghost use Rattle.eligible.specs.Chosen.{chosen};
ghost use Rattle.preemptive.specs.Candidate.{open_to, candidate, candidates_by_number, candidates};

use cluster::queue::priorities;
use cluster::usage::is_running;
use eligible::chosen::{Chosen, those};
use model::job::{Ask, Job};
use model::setting::Setting;
use model::sizes::JOBS;
use order::sort_front;
use tables::read;

// With quota-aware preemption on, a job that has a tenant preempts within its tenant alone.
fn is_open_to(aware: bool, tenant: u8, other: u8) -> bool
    ensures { result ≡ open_to aware tenant other }
{
    !aware || tenant == 0 || other == tenant
}

// Whether v may have to make way for a job that asks so.
#[tactic(auto, unfolding(crate::specs::Candidate::candidate))]
pub fn is_candidate(aware: bool, ask: Ask, v: Job) -> bool
    ensures { result ≡ candidate aware ask v }
{
    is_running(v)
        && v.ask.priority < ask.priority
        && v.evictions < 3
        && is_open_to(aware, ask.tenant, v.ask.tenant)
}

fn candidates_by_number(aware: bool, jobs: &[Job; JOBS], n: usize, ask: Ask) -> Chosen
    ensures { result ≡ chosen (candidates_by_number aware jobs.now n ask) }
{
    those(n, |i| is_candidate(aware, ask, read(jobs, i)))
}

// By priority, then by number: the sort keeps the order of equals.
pub fn candidates(setting: Setting, jobs: &[Job; JOBS], ask: Ask) -> Chosen
    ensures { result ≡ chosen (candidates setting jobs.now ask) }
{
    let found = candidates_by_number(setting.options.aware, jobs, usize::from(setting.jobs), ask);
    let ids = sort_front(false, &priorities(jobs), &[0; JOBS], found.ids, found.count);
    Chosen { ids, ..found }
}
