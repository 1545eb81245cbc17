// The decisions of a step, as they are made.

#![tactic(auto)]

pub mod words;

ghost use Rattle.std.specs.Prelude.{◌≡◌};
ghost use Rattle.decision_log.specs.Log.{no_decision, empty_log, kind_word, told};

use small::onward;
use tables::{Entry, put};

// At most: the event's own, and one for each job.
pub const DECISIONS: usize = 129;

#[derive(Clone, Copy)]
pub enum Kind {
    Arrived = 1,
    Failed,
    Completed,
    Evicted,
    Started,
}

// time is the bits of a time; other is 0, the GPUs or slices, or the job that an evicted one made way for.
#[derive(Clone, Copy)]
pub struct Decision {
    pub time: u64,
    pub kind: Kind,
    pub job: u16,
    pub other: u16,
}

// The decisions so far stand at the front of the table, count of them.
#[derive(Clone, Copy)]
pub struct Log {
    pub table: [Decision; DECISIONS],
    pub count: usize,
}

impl Entry for Decision {
    ghost none = { no_decision };

    #[tactic(auto, unfolding(crate::specs::Log::no_decision))]
    fn none() -> Decision {
        Decision {
            time: 0,
            kind: Kind::Arrived,
            job: 0,
            other: 0,
        }
    }
}

#[tactic(auto, unfolding(crate::specs::Log::empty_log))]
pub fn empty_log() -> Log
    ensures { result ≡ empty_log }
{
    Log {
        table: [Decision::none(); DECISIONS],
        count: 0,
    }
}

// The log with one more decision; a full one stays as it is.
#[tactic(auto, unfolding(crate::specs::Log::told))]
pub fn tell(log: Log, time: u64, kind: Kind, job: u16, other: u16) -> Log
    ensures { result ≡ told log time kind job other }
{
    let told = Decision {
        time,
        kind,
        job,
        other,
    };
    Log {
        table: put(log.table, log.count, told),
        count: onward(log.count, DECISIONS),
    }
}

// The log of one decision.
pub fn first_log(time: u64, kind: Kind, job: u16, other: u16) -> Log
    ensures { result ≡ told empty_log time kind job other }
{
    tell(empty_log(), time, kind, job, other)
}

pub fn kind_word(kind: Kind) -> u64
    ensures { result ≡ kind_word kind }
{
    kind as u64
}
