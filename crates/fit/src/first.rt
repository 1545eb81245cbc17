// A choice of GPUs, and first fit.

ghost use Rattle.std.specs.Prelude.{◌≡◌, false};
ghost use Rattle.eligible.specs.Chosen.{list_of};
ghost use Rattle.fit.specs.First.{took, held, first_fit};

use eligible::chosen::{Chosen, first_of};

// Which GPUs the job gets, and whether it is penalised.
#[derive(Clone, Copy)]
pub struct Choice {
    pub chosen: Chosen,
    pub penalised: bool,
}

pub fn take_these(these: Chosen, penalised: bool) -> Choice
    ensures { result ≡ held these penalised }
{
    Choice {
        chosen: these,
        penalised,
    }
}

// The first count in table order.
pub fn first_fit(e: Chosen, count: usize) -> Choice
    ensures { result ≡ took (first_fit (list_of e) count) false }
{
    take_these(first_of(e, count), false)
}
