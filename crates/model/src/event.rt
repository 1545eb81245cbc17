// The event room's entries.

ghost use Rattle.std.specs.Prelude.{◌≡◌};
ghost use Rattle.model.specs.Event.{empty_event};

use tables::Entry;

#[derive(Clone, Copy, PartialEq, Eq)]
pub enum EventKind {
    Empty,
    Arrival,
    Completion,
    Timeout,
}

// number is the insertion number; generation is the job's run or timeout generation that the event was queued for.
#[derive(Clone, Copy)]
pub struct Event {
    pub time: f64,
    pub number: u64,
    pub kind: EventKind,
    pub job: u16,
    pub generation: u32,
}

impl Entry for Event {
    ghost none = { empty_event };

    fn none() -> Event {
        Event {
            time: 0.0,
            number: 0,
            kind: EventKind::Empty,
            job: 0,
            generation: 0,
        }
    }
}
