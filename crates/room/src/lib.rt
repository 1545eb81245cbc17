// The event room: 1,152 entries; the least event, taking one and adding one.

#![tactic(auto)]

pub mod ahead;

ghost use Rattle.std.specs.Prelude.{◌≡◌};
ghost use Rattle.room.specs.Room.{used, earlier, ahead, first_free, added, taken};
ghost use Rattle.room.specs.Top.{least_under, top_after};

use model::event::{Event, EventKind};
use model::number::bits_of;
use model::sizes::EVENTS;
use tables::{Entry, read, write};

pub fn is_used(e: Event) -> bool
    ensures { result ≡ used e }
{
    !matches!(e.kind, EventKind::Empty)
}

// Less by time, then by insertion number.
#[tactic(auto, unfolding(crate::specs::Room::earlier))]
fn is_earlier(a: Event, b: Event) -> bool
    ensures { result ≡ earlier a b }
{
    (bits_of(a.time), a.number) < (bits_of(b.time), b.number)
}

// An event is ahead of an empty entry, and of an event that it is earlier than.
#[tactic(auto, unfolding(crate::specs::Room::ahead))]
fn is_ahead(a: Event, b: Event) -> bool
    ensures { result ≡ ahead a b }
{
    // an empty entry is told by its kind alone
    is_used(a) && (!is_used(b) || is_earlier(a, b))
}

// The entry of the least event among those below the top; some empty entry where there is none.
pub fn least_under(room: &[Event; EVENTS], top: usize) -> usize
    ensures { result ≡ least_under top room.now }
{
    let mut best = 0;
    for i in 1..top.min(EVENTS) {
        if is_ahead(read(room, i), read(room, best)) {
            best = i;
        }
    }
    best
}

// The first entry that holds no event, or 1,152.
#[tactic(auto, unfolding(crate::specs::Room::first_free, crate::specs::Top::top_after))]
fn first_free(room: &[Event; EVENTS]) -> usize
    ensures { result ≡ first_free room.now }
{
    next_top(room, 0)
}

// The first entry from the top on that holds no event, or 1,152; a top past the room stays.
pub fn next_top(room: &[Event; EVENTS], top: usize) -> usize
    ensures { result ≡ top_after room.now top }
{
    for i in top..EVENTS {
        if !is_used(room[i]) {
            return i;
        }
    }
    top.max(EVENTS)
}

// With no entry free the room stays as it is.
#[tactic(auto, unfolding(crate::specs::Room::added))]
pub fn add_event(room: &mut [Event; EVENTS], e: Event)
    ensures { room.new ≡ added room.old e }
{
    let i = first_free(room);
    write(room, i, e);
}

#[tactic(auto, unfolding(crate::specs::Room::taken))]
pub fn take_event(room: &mut [Event; EVENTS], i: usize)
    ensures { room.new ≡ taken room.old i }
{
    write(room, i, Event::none());
}
