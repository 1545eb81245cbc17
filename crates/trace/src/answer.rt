// The answer of reading and loading: accepted, or a refusal with its place.

ghost use Rattle.std.specs.Prelude.{◌≡◌, ◌+◌, ◌<◌, ◌^◌};
ghost use Rattle.trace.specs.Answer.{number_of, place_of, further};

// Why a trace is refused, by document 01's numbers.
#[derive(Clone, Copy, PartialEq, Eq)]
pub enum Fault {
    EndsEarly = 1,
    BadNumber,
    UnknownKind,
    OutOfRange,
    GpuBeforeNode,
    Repeated,
    TableFull,
    AfterEnd,
    TooLong,
}

// A refusal and the byte place that shows it.
#[derive(Clone, Copy, PartialEq, Eq)]
pub struct Refusal {
    pub fault: Fault,
    pub at: usize,
}

// Document 01's number of a refusal; 0 stands for none.
pub fn number_of(answer: Result<(), Refusal>) -> u64
    ensures { result ≡ number_of answer }
{
    match answer {
        Ok(()) => 0,
        Err(refusal) => refusal.fault as u64,
    }
}

pub fn place_of(answer: Result<(), Refusal>) -> usize
    ensures { result ≡ place_of answer }
{
    match answer {
        Ok(()) => 0,
        Err(refusal) => refusal.at,
    }
}

// The same refusal of bytes that stand so much further on.
pub fn further(by: usize, refusal: Refusal) -> Refusal
    requires { by + refusal.at < 2 ^ 64 }
    ensures { result ≡ further by refusal }
{
    Refusal {
        at: by + refusal.at,
        ..refusal
    }
}
