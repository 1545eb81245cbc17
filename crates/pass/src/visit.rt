// One waiting job is looked at: placed if it can be, if need be after preemption.

ghost use Rattle.std.specs.Prelude.{◌≡◌, List, Some};
ghost use Rattle.preemptive.specs.Prefix.{whole_preempted};
ghost use Rattle.resource.specs.Allocate.{whole_allocation};
ghost use Rattle.pass.specs.Visit.{new_turn, whole_pass, placed_as, settled, made_way, preempting, considered, visited};
ghost use Rattle.model.specs.declared.gpu.Gpu.{Gpu};

use life::place;
use line::join::{Line, is_among, join_all};
use line::keep::is_waiting;
use model::gpu::Gpu;
use model::job::Job;
use model::setting::Setting;
use model::sizes::{GPUS, JOBS};
use preemptive::prefix::{Way, preempt};
use resource::allocate::{Got, allocate};
use small::{onward, plus_one};
use starts::begin::Placing;
use tables::{Entry, put, read, write};

// placed holds the jobs placed so far, count of them, in the order of placing.
#[derive(Clone, Copy)]
pub struct Pass {
    pub gpus: [Gpu; GPUS],
    pub jobs: [Job; JOBS],
    pub line: Line,
    pub placed: [Placing; JOBS],
    pub count: usize,
}

// The same without the tables of GPUs and jobs, which are lent.
#[derive(Clone, Copy)]
pub struct Turn {
    pub line: Line,
    pub placed: [Placing; JOBS],
    pub count: usize,
}

#[tactic(auto, unfolding(crate::specs::Visit::new_turn))]
pub fn new_turn(line: Line) -> Turn
    ensures { result ≡ new_turn line }
{
    Turn {
        line,
        placed: [Placing::none(); JOBS],
        count: 0,
    }
}

// The job has what was allocated to it, and starts when the pass is over.
fn place_as(jobs: &mut [Job; JOBS], turn: Turn, id: u16, j: Job, got: Got) -> Turn
    ensures { (gpus : List Gpu) → whole_pass result gpus jobs.new
        ≡ placed_as (whole_pass turn gpus jobs.old) id j (whole_allocation (Some got) gpus) }
{
    let p = Placing {
        job: id,
        cut: got.cut,
        penalised: got.penalised,
    };
    write(jobs, usize::from(id), place(j));
    Turn {
        placed: put(turn.placed, turn.count, p),
        count: onward(turn.count, JOBS),
        ..turn
    }
}

// After the evictions for the job it is placed if it can be.
fn settle(
    setting: Setting,
    gpus: &mut [Gpu; GPUS],
    jobs: &mut [Job; JOBS],
    turn: Turn,
    id: u16,
    j: Job,
) -> Turn
    ensures { whole_pass result gpus.new jobs.new
        ≡ settled setting (whole_pass turn gpus.old jobs.old) id j }
{
    match allocate(setting, gpus, jobs, j, plus_one(id)) {
        Some(got) => place_as(jobs, turn, id, j, got),
        None => turn,
    }
}

// The pass when the victims have left.
fn make_way(clock: f64, jobs: &[Job; JOBS], turn: Turn, id: u16, got: Way) -> Turn
    ensures { (gpus : List Gpu) → whole_pass result gpus jobs.now
        ≡ made_way clock (whole_pass turn gpus jobs.now) id (whole_preempted got gpus jobs.now) }
{
    Turn {
        line: join_all(turn.line, clock, jobs, got.victims, got.count, id),
        ..turn
    }
}

// Where no prefix of the candidates helps all stays as it was.
fn preempt_for(
    setting: Setting,
    clock: f64,
    gpus: &mut [Gpu; GPUS],
    jobs: &mut [Job; JOBS],
    turn: Turn,
    id: u16,
    j: Job,
) -> Turn
    ensures { whole_pass result gpus.new jobs.new
        ≡ preempting setting clock (whole_pass turn gpus.old jobs.old) id j }
{
    let got = preempt(setting, clock, gpus, jobs, j);
    if got.count == 0 {
        turn
    } else {
        let way = make_way(clock, jobs, turn, id, got);
        settle(setting, gpus, jobs, way, id, j)
    }
}

// A MIG job does not preempt.
fn consider(
    setting: Setting,
    clock: f64,
    gpus: &mut [Gpu; GPUS],
    jobs: &mut [Job; JOBS],
    turn: Turn,
    id: u16,
    j: Job,
) -> Turn
    ensures { whole_pass result gpus.new jobs.new
        ≡ considered setting clock (whole_pass turn gpus.old jobs.old) id j }
{
    match allocate(setting, gpus, jobs, j, plus_one(id)) {
        Some(got) => place_as(jobs, turn, id, j, got),
        None if j.ask.profile == 0 => preempt_for(setting, clock, gpus, jobs, turn, id, j),
        None => turn,
    }
}

// Victims of this pass are not looked at.
pub fn visit(
    setting: Setting,
    clock: f64,
    gpus: &mut [Gpu; GPUS],
    jobs: &mut [Job; JOBS],
    turn: Turn,
    id: u16,
) -> Turn
    ensures { whole_pass result gpus.new jobs.new
        ≡ visited setting clock (whole_pass turn gpus.old jobs.old) id }
{
    let j = read(jobs, usize::from(id));
    if !is_waiting(j) || is_among(turn.line.victims, turn.line.evicted, id) {
        turn
    } else {
        consider(setting, clock, gpus, jobs, turn, id, j)
    }
}
