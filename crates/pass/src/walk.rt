// A pass over the waiting line: the queue is sorted, then each job of it is looked at once.

ghost use Rattle.std.specs.Prelude.{◌≡◌, List, ℕ, min};
ghost use Rattle.pass.specs.Visit.{whole_pass};
ghost use Rattle.laws.specs.Loop.{through};
ghost use Rattle.pass.specs.Walk.{sorted, visit_at, walked};
ghost use Rattle.model.specs.declared.gpu.Gpu.{Gpu};

use crate::rank::ranks_of;
use crate::stay::stays;
use crate::visit::{Turn, visit};
use cluster::queue::sort_queue;
use line::join::Line;
use model::gpu::Gpu;
use model::job::Job;
use model::setting::Setting;
use model::sizes::{GPUS, JOBS};

// The pass with its queue sorted.
fn sort_line(jobs: &[Job; JOBS], turn: Turn) -> Turn
    ensures { (gpus : List Gpu) → whole_pass result gpus jobs.now ≡ sorted (whole_pass turn gpus jobs.now) }
{
    let queue = sort_queue(jobs, turn.line.queue, turn.line.waiting);
    Turn {
        line: Line { queue, ..turn.line },
        ..turn
    }
}

// The jobs of the queue as it is now, one after the other; what joins it meanwhile is not looked at.
fn visit_all(
    setting: Setting,
    clock: f64,
    gpus: &mut [Gpu; GPUS],
    jobs: &mut [Job; JOBS],
    turn: Turn,
) -> Turn
    ensures { whole_pass result gpus.new jobs.new
        ≡ through (visit_at setting clock turn.line.queue) (whole_pass turn gpus.old jobs.old)
        (min turn.line.waiting 128) 0 }
{
    let queue = turn.line.queue;
    let n = usize::from(setting.gpus);
    let mut work = turn;
    let mut ranks = ranks_of(gpus, jobs, n);
    for id in &queue[..turn.line.waiting.min(JOBS)] {
        if !stays(setting, gpus, jobs, &ranks, *id) {
            work = visit(setting, clock, gpus, jobs, work, *id);
            ranks = ranks_of(gpus, jobs, n);
        }
    }
    work
}

pub fn walk(
    setting: Setting,
    clock: f64,
    gpus: &mut [Gpu; GPUS],
    jobs: &mut [Job; JOBS],
    turn: Turn,
) -> Turn
    ensures { whole_pass result gpus.new jobs.new
        ≡ walked setting clock (whole_pass turn gpus.old jobs.old) }
{
    let ordered = sort_line(jobs, turn);
    visit_all(setting, clock, gpus, jobs, ordered)
}
