// The first cause why a job is not placeable; placeable is to have none.

ghost use Rattle.std.specs.Prelude.{◌≡◌};
ghost use Rattle.resource.specs.Cause.{whole_cause, slices_cause, resource_cause, first_cause, placeable};

use crate::quota::within_quota;
use choice::choose::why_not_here;
use choice::why::Why;
use mig::allocate::slices_placeable;
use model::gpu::Gpu;
use model::job::Job;
use model::setting::Setting;
use model::sizes::{GPUS, JOBS};
use tables::read;

#[derive(Clone, Copy)]
pub enum Cause {
    OverQuota,
    NoCount,
    NotMultiple,
    TooFew,
    NoProfile,
    TooManySlices,
    NoIdle,
}

impl From<Why> for Cause {
    ghost from_gives = { λ why c. c ≡ whole_cause why };

    fn from(why: Why) -> Cause {
        match why {
            Why::NoCount => Cause::NoCount,
            Why::NotMultiple => Cause::NotMultiple,
            Why::TooFew => Cause::TooFew,
        }
    }
}

// most is 0 where the profile is not loaded.
#[tactic(auto, unfolding(crate::specs::Cause::slices_cause))]
fn slices_cause(gpus: &[Gpu; GPUS], n: usize, profile: u8, most: u8, want: u8) -> Option<Cause>
    ensures { result ≡ slices_cause gpus.now n profile most want }
{
    if most == 0 {
        Some(Cause::NoProfile)
    } else if slices_placeable(gpus, n, profile, most, want) {
        None
    } else if most < want {
        Some(Cause::TooManySlices)
    } else {
        Some(Cause::NoIdle)
    }
}

#[tactic(auto, unfolding(crate::specs::Cause::resource_cause))]
pub fn resource_cause(setting: Setting, gpus: &[Gpu; GPUS], j: Job) -> Option<Cause>
    ensures { result ≡ resource_cause setting gpus.now j }
{
    let n = usize::from(setting.gpus);
    if j.ask.profile == 0 {
        why_not_here(gpus, n, setting.sites, j.ask).map(Cause::from)
    } else {
        let most = read(&setting.mosts, usize::from(j.ask.profile - 1));
        slices_cause(gpus, n, j.ask.profile, most, j.ask.slices)
    }
}

#[tactic(auto, unfolding(crate::specs::Cause::first_cause))]
pub fn first_cause(
    setting: Setting,
    gpus: &[Gpu; GPUS],
    jobs: &[Job; JOBS],
    j: Job,
) -> Option<Cause>
    ensures { result ≡ first_cause setting gpus.now jobs.now j }
{
    if within_quota(setting, jobs, j) {
        resource_cause(setting, gpus, j)
    } else {
        Some(Cause::OverQuota)
    }
}

#[tactic(auto, unfolding(crate::specs::Cause::placeable))]
pub fn is_placeable(setting: Setting, gpus: &[Gpu; GPUS], jobs: &[Job; JOBS], j: Job) -> bool
    ensures { result ≡ placeable setting gpus.now jobs.now j }
{
    first_cause(setting, gpus, jobs, j).is_none()
}
