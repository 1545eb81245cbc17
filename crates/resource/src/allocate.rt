// Allocation: which GPUs or slices a placeable job gets, and the table with them owned.

ghost use Rattle.std.specs.Prelude.{◌≡◌, Some};
ghost use Rattle.resource.specs.Allocate.{whole_allocation, whole_allocated, slices_got, allocated};

use crate::cause::resource_cause;
use crate::quota::within_quota;
use choice::choose::choose_gpus;
use cluster::gpus::give_gpus;
use mig::allocate::allocate_slices;
use model::gpu::Gpu;
use model::job::Job;
use model::setting::Setting;
use model::sizes::{GPUS, JOBS};
use tables::read;

// cut: a GPU was cut anew for the job; penalised: its GPUs are not of one group where that was wanted.
#[derive(Clone, Copy)]
pub struct Allocation {
    pub gpus: [Gpu; GPUS],
    pub placed: bool,
    pub cut: bool,
    pub penalised: bool,
}

// The same of a job that was placed, without the table of GPUs, which is lent.
#[derive(Clone, Copy)]
pub struct Got {
    pub cut: bool,
    pub penalised: bool,
}

// Nothing is given where the GPUs are not enough.
#[tactic(auto, using(crate::specs::AllocateCases::none_given))]
fn allocate_whole(setting: Setting, gpus: &mut [Gpu; GPUS], j: Job, owner: u16) -> Option<Got>
    ensures { whole_allocation result gpus.new ≡ whole_allocated setting gpus.old j owner }
{
    let choice = choose_gpus(
        gpus,
        usize::from(setting.gpus),
        setting.sites,
        j.ask,
        setting.options.best,
    )?;
    give_gpus(gpus, choice.chosen.ids, choice.chosen.count, owner);
    Some(Got {
        cut: false,
        penalised: choice.penalised,
    })
}

fn allocate_mig(setting: Setting, gpus: &mut [Gpu; GPUS], j: Job, owner: u16) -> Got
    ensures { whole_allocation (Some result) gpus.new ≡ slices_got setting gpus.old j owner }
{
    let most = read(&setting.mosts, usize::from(j.ask.profile.saturating_sub(1)));
    let n = usize::from(setting.gpus);
    let cut = match allocate_slices(gpus, n, j.ask.profile, most, j.ask.slices, owner) {
        Some(given) => given.cut,
        None => false,
    };
    Got {
        cut,
        penalised: false,
    }
}

// A job that is not placeable gets nothing, and the table stays as it was.
#[tactic(auto, using(crate::specs::AllocateCases::placings))]
pub fn allocate(
    setting: Setting,
    gpus: &mut [Gpu; GPUS],
    jobs: &[Job; JOBS],
    j: Job,
    owner: u16,
) -> Option<Got>
    ensures { whole_allocation result gpus.new ≡ allocated setting gpus.old jobs.now j owner }
{
    if !within_quota(setting, jobs, j) {
        None
    } else if j.ask.profile == 0 {
        allocate_whole(setting, gpus, j, owner)
    } else if resource_cause(setting, gpus, j).is_none() {
        Some(allocate_mig(setting, gpus, j, owner))
    } else {
        None
    }
}
