// The events ahead: the room, the insertion number that the next event gets, and whether every number stored so far is permitted.

ghost use Rattle.std.specs.Prelude.{◌≡◌};
ghost use Rattle.room.specs.Ahead.{whole_ahead, queued};

use crate::add_event;
use model::event::{Event, EventKind};
use model::number::is_permitted;
use model::sizes::EVENTS;

#[derive(Clone, Copy)]
pub struct Ahead {
    pub events: [Event; EVENTS],
    pub next: u64,
    pub ok: bool,
}

// The same without the room, which is lent.
#[derive(Clone, Copy)]
pub struct Next {
    pub next: u64,
    pub ok: bool,
}

// The event gets the next insertion number; its time has to be permitted.
#[tactic(auto, unfolding(crate::specs::Ahead::queued))]
pub fn queue_event(
    room: &mut [Event; EVENTS],
    a: Next,
    time: f64,
    kind: EventKind,
    job: u16,
    generation: u32,
) -> Next
    ensures { whole_ahead result room.new ≡ queued (whole_ahead a room.old) time kind job generation }
{
    let e = Event {
        time,
        number: a.next,
        kind,
        job,
        generation,
    };
    add_event(room, e);
    Next {
        next: std::num::wrapping_add_u64(a.next, 1),
        ok: a.ok && is_permitted(time),
    }
}
