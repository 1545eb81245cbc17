// The planner as C and Rust link it: the calls of `gpu_planner`, with their clauses.

#![tactic(auto)]

ghost use Rattle.std.specs.Prelude.{◌≡◌, length};
ghost use Rattle.loader.specs.Load as Load;
ghost use Rattle.planner.specs.Question.{question};
ghost use Rattle.planner.specs.Step.{stepped, words_after};
ghost use Rattle.gpu_planner.specs.Held.{held_plan, plan_in};
ghost use Rattle.gpu_planner.specs.Lent.{load_word, step_word, place_word};
ghost use Rattle.gpu_planner.specs.Ran.{ran_answer, ran_words};

use gpu_planner::held::HeldPlan;
use gpu_planner::lent;

// Plans a trace to its end and returns the answer: 10 where the words are too few, and then they all stay as they were.
// Else: word 0 the answer, word 1 the place of a refused load, word 2 the accepted steps, word 3 the decisions; from word 4 on
// the decisions, four words each as `step` writes them; every other word stays as it was.
#[unsafe(no_mangle)]
pub extern "C" fn planner_run(trace: &[u8], words: &mut [u64]) -> u64
    ensures value { result ≡ ran_answer trace.now words.old }
    ensures words_after { words.new ≡ ran_words trace.now words.old }
{
    gpu_planner::planner_run(trace, words)
}

// Loads a trace into the plan that is lent; refused, the plan is the empty one.
#[unsafe(no_mangle)]
pub extern "C" fn planner_load(trace: &[u8], plan: &mut HeldPlan) -> u64
    ensures { (result ≡ load_word (Load.load trace.now).answer)
        × (plan.new ≡ held_plan (Load.load trace.now).plan) }
{
    lent::planner_load(trace, plan)
}

// Takes the next step of the plan that is lent, and writes its decisions into the words.
#[unsafe(no_mangle)]
pub extern "C" fn planner_step(plan: &mut HeldPlan, words: &mut [u64]) -> u64
    ensures { (result ≡ step_word (stepped (plan_in plan.old) (length words.old)).answer)
        × (plan.new ≡ held_plan (stepped (plan_in plan.old) (length words.old)).plan)
        × (words.new ≡ words_after (plan_in plan.old) words.old) }
{
    lent::planner_step(plan, words)
}

// Whether a job is placeable in the plan that is lent, as it is.
#[unsafe(no_mangle)]
pub extern "C" fn planner_can_place(plan: &HeldPlan, job: usize) -> u64
    ensures { result ≡ place_word (question (plan_in plan.now) job) }
{
    lent::planner_can_place(plan, job)
}
