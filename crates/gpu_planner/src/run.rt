// A loaded plan taken to its end, step by step, with the decisions of each step behind those before.

ghost use Rattle.std.specs.Prelude.{◌≡◌, ◌≤◌, length};
ghost use Rattle.room.specs.Top.{free_from};
ghost use Rattle.gpu_planner.specs.Head.{ended_head};
ghost use Rattle.gpu_planner.specs.Run.{end_number, run_to, turns};

use crate::head::Head;
use decision_log::DECISIONS;
use model::plan::Plan;
use planner::StepRefusal;
use planner::lent::step_lent;
use room::next_top;

// Steps that are tried: nine accepted ones for each of 128 jobs, and the one that is refused.
const TURNS: u64 = 1153;

// The run's answer by the refusal that ends it.
fn end_number(refusal: StepRefusal) -> u64
    ensures { result ≡ end_number refusal }
{
    match refusal {
        StepRefusal::NoEvent => 0,
        StepRefusal::NotPermitted => 12,
        StepRefusal::ShortBuffer => 10,
    }
}

fn ended(answer: u64, steps: u64, count: usize) -> Head
    ensures { result ≡ ended_head answer steps count }
{
    Head {
        answer,
        place: 0,
        steps,
        decisions: count as u64,
    }
}

// The run's head; its decisions stand behind the first four words. It runs short of neither words nor turns (`promises`, RunWords).
// The plan is lent, and changed in place; no entry of its room from the first top on holds an event.
pub fn run(plan: &mut Plan, first: usize, words: &mut [u64]) -> Head
    requires in_bounds { 4 ≤ length words.old }
    requires free_from { free_from first plan.old.events }
    ensures value { result ≡ (run_to turns plan.old 0 0 words.old).head }
    ensures words_after { words.new ≡ (run_to turns plan.old 0 0 words.old).words }
{
    let mut top = first;
    let mut count = 0;
    for steps in 0..TURNS {
        let at = 4 + 4 * count;
        let answer = step_lent(plan, top, &mut words[at..]);
        top = next_top(&plan.events, top);
        match answer {
            Ok(n) => count += n.min(DECISIONS),
            Err(refusal) => return ended(end_number(refusal), steps, count),
        }
    }
    ended(10, TURNS, count)
}
