// Quota: usage and the job's charge together are at most the tenant's quota.

ghost use Rattle.std.specs.Prelude.{◌≡◌};
ghost use Rattle.resource.specs.Quota.{within_quota};

use cluster::usage::{charge, usage};
use model::job::Job;
use model::setting::Setting;
use model::sizes::JOBS;
use tables::read;

// No tenant or no quota entry is unrestricted. A quota is kept plus 1.
#[tactic(auto, using(crate::specs::Quota::quotas))]
pub fn within_quota(setting: Setting, jobs: &[Job; JOBS], j: Job) -> bool
    ensures { result ≡ within_quota setting jobs.now j }
{
    if j.ask.tenant == 0 {
        return true;
    }
    let kept = read(&setting.quotas, usize::from(j.ask.tenant - 1));
    if kept == 0 {
        return true;
    }
    let used = usage(jobs, usize::from(setting.jobs), j.ask.tenant);
    used < kept && charge(j) < kept - used
}
