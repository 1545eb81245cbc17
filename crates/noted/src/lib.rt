// The five running totals, as joins, evictions and starts change them.

#![tactic(auto)]

mod change;
mod lent;

ghost use Rattle.std.specs.Prelude.{◌≡◌};
ghost use Rattle.noted.specs.Noted.{joined, evicted, started};

use crate::lent::{note_eviction, note_start};
use model::totals::Totals;

// A job has joined the queue, which is so long now.
#[tactic(auto, unfolding(crate::specs::Noted::joined))]
pub fn after_join(t: Totals, queue: u64) -> Totals
    ensures { result ≡ joined t queue }
{
    Totals {
        longest: t.longest.max(queue),
        ..t
    }
}

// A victim has joined the queue, which is so long now. The totals, which come by value, are lent to be changed in place.
pub fn after_eviction(mut t: Totals, queue: u64) -> Totals
    ensures { result ≡ evicted t queue }
{
    note_eviction(&mut t, queue);
    t
}

// A job has started; lent in the same way.
pub fn after_start(
    mut t: Totals,
    cut: bool,
    penalised: bool,
    remaining: f64,
    multiplier: f64,
) -> Totals
    ensures { result ≡ started t cut penalised remaining multiplier }
{
    note_start(&mut t, cut, penalised, remaining, multiplier);
    t
}
