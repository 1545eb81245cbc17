// The public face of the planner.

#![tactic(auto)]

pub mod lent;

ghost use Rattle.std.specs.Prelude.{◌≡◌, length};
ghost use Rattle.loader.specs.Load as Load;
ghost use Rattle.planner.specs.Question.{question};
ghost use Rattle.planner.specs.Step.{stepped, words_after};

use lent::step_lent;
use loader::load::Loaded;
use model::plan::Plan;
use model::sizes::EVENTS;
use resource::cause::is_placeable;
use tables::read;

// Words that the decisions of one step may take.
pub const WORDS: usize = 516;

// Why it was not said whether a job is placeable.
#[derive(Clone, Copy, PartialEq, Eq)]
pub struct NoSuchJob;

// Why a step was refused.
#[derive(Clone, Copy, PartialEq, Eq)]
pub enum StepRefusal {
    ShortBuffer,
    NoEvent,
    NotPermitted,
}

// How many decisions the step made, and the plan after it or, refused, as it was.
#[derive(Clone, Copy)]
pub struct Stepped {
    pub answer: Result<usize, StepRefusal>,
    pub plan: Plan,
}

// Loads a trace: the answer, and the plan or, refused, the empty plan.
pub fn load(trace: &[u8]) -> Loaded
    ensures { result ≡ Load.load trace.now }
{
    loader::load::load(trace)
}

// Whether a job is placeable in the plan as it is.
#[tactic(auto, unfolding(crate::specs::Question::question))]
pub fn can_place(plan: Plan, job: usize) -> Result<bool, NoSuchJob>
    ensures { result ≡ question plan job }
{
    if job >= usize::from(plan.setting.jobs) {
        return Err(NoSuchJob);
    }
    let asked = read(&plan.jobs, job);
    Ok(is_placeable(plan.setting, &plan.gpus, &plan.jobs, asked))
}

// Takes one step: its decisions are the first words of the buffer, four each. Refused, it leaves plan and buffer as they were.
pub fn step(plan: Plan, decisions: &mut [u64]) -> Stepped
    ensures value { result ≡ stepped plan (length decisions.old) }
    ensures decisions_after { decisions.new ≡ words_after plan decisions.old }
{
    let mut after = plan;
    let answer = step_lent(&mut after, EVENTS, decisions);
    // one that is not permitted has changed the plan that was lent
    let plan = if answer.is_ok() { after } else { plan };
    Stepped { answer, plan }
}
