// One step of a plan that is lent.

ghost use Rattle.std.specs.Prelude.{◌≡◌};
ghost use Rattle.room.specs.Top.{free_from};
ghost use Rattle.planner.specs.Lent.{Left};

use crate::{StepRefusal, WORDS};
use decision_log::words::write_words;
use engine::advance::{advance, next_event};
use model::plan::Plan;
use room::is_used;

// Takes one step of the lent plan. Where a number is not permitted it has changed the plan, and the buffer alone is as it was;
// otherwise refused, it leaves everything as it was. What it leaves is said of a top from which on no entry of the room is used.
pub fn step_lent(plan: &mut Plan, top: usize, decisions: &mut [u64]) -> Result<usize, StepRefusal>
    ensures { free_from top plan.old.events
        → Left plan.old decisions.old result plan.new decisions.new }
{
    if decisions.len() < WORDS {
        return Err(StepRefusal::ShortBuffer);
    }
    let next = next_event(&plan.events, top);
    if !is_used(next.event) {
        return Err(StepRefusal::NoEvent);
    }
    let m = advance(plan, next);
    if m.ok {
        write_words(decisions, m.log.table, m.log.count);
        Ok(m.log.count)
    } else {
        Err(StepRefusal::NotPermitted)
    }
}
