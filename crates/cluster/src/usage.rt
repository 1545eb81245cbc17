// Which jobs hold GPUs, and how much of its quota a tenant uses.

ghost use Rattle.std.specs.Prelude.{◌≡◌};
ghost use Rattle.cluster.specs.Usage.{running, holding, charge_of, charge_to, usage};

use model::job::{Job, JobState};
use model::sizes::JOBS;

pub fn is_running(j: Job) -> bool
    ensures { result ≡ running j }
{
    j.state == JobState::Running
}

// Running, or placed in the present pass.
#[tactic(auto, unfolding(crate::specs::Usage::holding))]
pub fn holds(j: Job) -> bool
    ensures { result ≡ holding j }
{
    matches!(j.state, JobState::Running | JobState::Placed)
}

// What a job costs of its tenant's quota. In 32 bits, so that the sum over a whole table fits 64.
#[tactic(auto, unfolding(crate::specs::Usage::charge_of))]
fn small_charge(j: Job) -> u32
    ensures { result ≡ charge_of j }
{
    u32::from(j.ask.count)
}

pub fn charge(j: Job) -> u64
    ensures { result ≡ charge_of j }
{
    u64::from(small_charge(j))
}

// What it costs this tenant now.
#[tactic(auto, unfolding(crate::specs::Usage::charge_to))]
pub fn charge_to(tenant: u8, j: Job) -> u32
    ensures { result ≡ charge_to tenant j }
{
    if holds(j) && j.ask.tenant == tenant {
        small_charge(j)
    } else {
        0
    }
}

// A tenant is its number plus 1.
pub fn usage(jobs: &[Job; JOBS], n: usize, tenant: u8) -> u64
    ensures { result ≡ usage jobs.now n tenant }
{
    jobs[..n.min(JOBS)]
        .iter()
        .map(|j| u64::from(charge_to(tenant, *j)))
        .sum()
}
