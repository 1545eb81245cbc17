// The plan: the setting, the tables that steps change, the totals, and the empty plan.

ghost use Rattle.std.specs.Prelude.{◌≡◌};
ghost use Rattle.model.specs.Plan.{empty_plan};

use crate::event::Event;
use crate::gpu::Gpu;
use crate::job::Job;
use crate::setting::{Setting, empty_setting};
use crate::sizes::{EVENTS, GPUS, JOBS};
use crate::totals::{Totals, no_totals};
use tables::Entry;

// queue holds the numbers of the waiting jobs, waiting of them; next is the insertion number that the next event gets.
#[derive(Clone, Copy)]
pub struct Plan {
    pub setting: Setting,
    pub gpus: [Gpu; GPUS],
    pub jobs: [Job; JOBS],
    pub queue: [u16; JOBS],
    pub waiting: usize,
    pub events: [Event; EVENTS],
    pub next: u64,
    pub clock: f64,
    pub totals: Totals,
}

// The plan that holds no record: what a refused load gives.
#[tactic(auto, unfolding(crate::specs::Plan::empty_plan))]
pub fn empty_plan() -> Plan
    ensures { result ≡ empty_plan }
{
    Plan {
        setting: empty_setting(),
        gpus: [Gpu::none(); GPUS],
        jobs: [Job::none(); JOBS],
        queue: [0; JOBS],
        waiting: 0,
        events: [Event::none(); EVENTS],
        next: 0,
        clock: 0.0,
        totals: no_totals(),
    }
}
