// The least event is taken, the clock becomes its time, and what it says is done.

ghost use Rattle.std.specs.Prelude.{◌≡◌};
ghost use Rattle.happen.specs.Happen.{whole_moment};
ghost use Rattle.engine.specs.Advance.{happened, found_under, advanced_by};

use crate::settle::settle;
use happen::{Point, nothing, on_arrival, on_completion, on_timeout};
use model::event::{Event, EventKind};
use model::plan::Plan;
use model::sizes::EVENTS;
use room::{least_under, take_event};
use tables::read;

// An event, and the entry that it stands in.
#[derive(Clone, Copy)]
pub struct Found {
    pub at: usize,
    pub event: Event,
}

// The least event of the entries below the top; an empty one where there is none.
#[tactic(auto, unfolding(crate::specs::Advance::found_under))]
pub fn next_event(room: &[Event; EVENTS], top: usize) -> Found
    ensures { result ≡ found_under top room.now }
{
    let at = least_under(room, top);
    Found {
        at,
        event: read(room, at),
    }
}

#[tactic(auto, unfolding(happen::specs::Happen::stale))]
fn happen_as(plan: &mut Plan, e: Event) -> Point
    ensures { whole_moment result plan.new ≡ happened plan.old e }
{
    match e.kind {
        EventKind::Empty => nothing(),
        EventKind::Arrival => on_arrival(plan, e),
        EventKind::Completion => on_completion(plan, e),
        EventKind::Timeout => on_timeout(plan, e),
    }
}

// With the event that was found; a stale one is taken, and no pass follows it.
#[tactic(auto, unfolding(crate::specs::Advance::advanced_by, crate::specs::Advance::with_found))]
pub fn advance(plan: &mut Plan, next: Found) -> Point
    ensures { whole_moment result plan.new ≡ advanced_by plan.old next }
{
    take_event(&mut plan.events, next.at);
    plan.clock = next.event.time;
    let m = happen_as(plan, next.event);
    if m.goes { settle(plan, m) } else { m }
}
