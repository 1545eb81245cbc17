// What follows an event: a pass, the victims' timeouts, the starts, and the queue without those who left it.

ghost use Rattle.std.specs.Prelude.{◌≡◌};
ghost use Rattle.starts.specs.Begin.{whole_begun};
ghost use Rattle.pass.specs.Visit.{whole_pass};
ghost use Rattle.happen.specs.Happen.{whole_moment};
ghost use Rattle.engine.specs.Settle.{with_pass, after_pass, settled};

use eligible::chosen::Chosen;
use happen::Point;
use line::join::new_line;
use line::keep::keep_waiting;
use model::plan::Plan;
use model::sizes::JOBS;
use pass::visit::{Turn, new_turn};
use pass::walk::walk;
use room::ahead::Next;
use starts::begin::{Beginning, begin_all};
use starts::timeout::queue_timeouts;

// The plan after the starts; the queue keeps those that still wait.
#[tactic(auto, unfolding(crate::specs::Settle::with_pass))]
fn with_pass(plan: &mut Plan, pass: Turn, begun: Beginning)
    ensures { plan.new ≡ with_pass plan.old (whole_pass pass plan.old.gpus plan.old.jobs)
        (whole_begun begun plan.old.jobs plan.old.events) }
{
    let Chosen { ids, count } = keep_waiting(&plan.jobs, pass.line.queue, pass.line.waiting);
    plan.queue = ids;
    plan.waiting = count;
    plan.next = begun.ahead.next;
    plan.totals = begun.totals;
}

// Timeouts of the victims come before the completions of those that start.
#[tactic(auto, unfolding(crate::specs::Settle::after_pass, crate::specs::Settle::starts_of, crate::specs::Settle::with_pass))]
fn start_placed(plan: &mut Plan, pass: Turn) -> Point
    ensures { whole_moment result plan.new ≡ after_pass plan.old (whole_pass pass plan.old.gpus plan.old.jobs) }
{
    let line = pass.line;
    let a = Next {
        next: plan.next,
        ok: line.ok,
    };
    let ahead = queue_timeouts(
        &mut plan.events,
        a,
        plan.clock,
        &plan.jobs,
        line.victims,
        line.evicted,
    );
    let b = Beginning {
        ahead,
        totals: line.totals,
        log: line.log,
    };
    let begun = begin_all(
        &mut plan.jobs,
        &mut plan.events,
        b,
        plan.setting.options,
        plan.clock,
        pass.placed,
        pass.count,
    );
    with_pass(plan, pass, begun);
    Point {
        log: begun.log,
        ok: begun.ahead.ok,
        goes: false,
    }
}

// Where nobody waits the pass looks at nobody, and nobody starts.
pub fn settle(plan: &mut Plan, m: Point) -> Point
    ensures { whole_moment result plan.new ≡ settled (whole_moment m plan.old) }
{
    if plan.waiting == 0 {
        plan.queue = [0; JOBS];
        return Point { goes: false, ..m };
    }
    let line = new_line(plan.queue, plan.waiting, plan.totals, m.log, m.ok);
    let pass = walk(
        plan.setting,
        plan.clock,
        &mut plan.gpus,
        &mut plan.jobs,
        new_turn(line),
    );
    start_placed(plan, pass)
}
