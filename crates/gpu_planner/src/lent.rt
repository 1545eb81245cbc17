// A load, a step and the question for a caller outside, who holds the plan and lends it.

ghost use Rattle.std.specs.Prelude.{◌≡◌, ◌<◌, ◌^◌, length};
ghost use Rattle.loader.specs.Load as Load;
ghost use Rattle.planner.specs.Question.{question};
ghost use Rattle.planner.specs.Step.{number_of, stepped, words_after};
ghost use Rattle.gpu_planner.specs.Held.{held_plan, plan_in};
ghost use Rattle.gpu_planner.specs.Lent.{word_of, count_of, load_word, step_word, place_word, load_held, step_held};

use crate::held::{HeldPlan, held_plan, plan_in};
use planner::{NoSuchJob, StepRefusal, can_place, load, step};
use trace::answer::{number_of, place_of};

// The plan to hand out, and the word that tells how it went.
#[derive(Clone, Copy)]
pub struct Handed {
    pub word: u64,
    pub plan: HeldPlan,
}

// The number of a refusal, or 0, in the upper 32 bits; a place or a count in the lower.
fn word_of(number: u64, value: usize) -> u64
    requires { number < 2 ^ 32 }
    ensures { result ≡ word_of number value }
{
    number * 0x1_0000_0000 + value as u64 % 0x1_0000_0000
}

fn taken_number(t: Result<usize, StepRefusal>) -> u64
    ensures { result ≡ number_of t }
{
    match t {
        Ok(_) => 0,
        Err(StepRefusal::ShortBuffer) => 10,
        Err(StepRefusal::NoEvent) => 11,
        Err(StepRefusal::NotPermitted) => 12,
    }
}

fn taken_count(t: Result<usize, StepRefusal>) -> usize
    ensures { result ≡ count_of t }
{
    t.unwrap_or(0)
}

fn place_word(p: Result<bool, NoSuchJob>) -> u64
    ensures { result ≡ place_word p }
{
    match p {
        Ok(true) => 1,
        Ok(false) => 0,
        Err(NoSuchJob) => 0xd_0000_0000,
    }
}

fn load_held(trace: &[u8]) -> Handed
    ensures { result ≡ load_held trace.now }
{
    let loaded = load(trace);
    Handed {
        word: word_of(number_of(loaded.answer), place_of(loaded.answer)),
        plan: held_plan(loaded.plan),
    }
}

fn step_held(plan: HeldPlan, words: &mut [u64]) -> Handed
    ensures { (result ≡ step_held plan (length words.old)) × (words.new ≡ words_after (plan_in plan) words.old) }
{
    let s = step(plan_in(plan), words);
    Handed {
        word: word_of(taken_number(s.answer), taken_count(s.answer)),
        plan: held_plan(s.plan),
    }
}

fn place_held(plan: HeldPlan, job: usize) -> u64
    ensures { result ≡ place_word (question (plan_in plan) job) }
{
    place_word(can_place(plan_in(plan), job))
}

// Loads a trace into the plan that is lent; refused, the plan is the empty one.
pub fn planner_load(trace: &[u8], plan: &mut HeldPlan) -> u64
    ensures { (result ≡ load_word (Load.load trace.now).answer)
        × (plan.new ≡ held_plan (Load.load trace.now).plan) }
{
    let h = load_held(trace);
    *plan = h.plan;
    h.word
}

// Takes the next step of the plan that is lent, and writes its decisions into the words.
pub fn planner_step(plan: &mut HeldPlan, words: &mut [u64]) -> u64
    ensures { (result ≡ step_word (stepped (plan_in plan.old) (length words.old)).answer)
        × (plan.new ≡ held_plan (stepped (plan_in plan.old) (length words.old)).plan)
        × (words.new ≡ words_after (plan_in plan.old) words.old) }
{
    let h = step_held(*plan, words);
    *plan = h.plan;
    h.word
}

// Whether a job is placeable in the plan that is lent, as it is.
pub fn planner_can_place(plan: &HeldPlan, job: usize) -> u64
    ensures { result ≡ place_word (question (plan_in plan.now) job) }
{
    place_held(*plan, job)
}
