// The totals changed in place: lent to one thin function for evictions and one for starts.

ghost use Rattle.std.specs.Prelude.{◌≡◌};
ghost use Rattle.noted.specs.Noted.{evicted, started};

use crate::change::{evicted, started};
use model::totals::Totals;

pub fn note_eviction(t: &mut Totals, queue: u64)
    ensures { t.new ≡ evicted t.old queue }
{
    *t = evicted(*t, queue);
}

pub fn note_start(t: &mut Totals, cut: bool, penalised: bool, remaining: f64, multiplier: f64)
    ensures { t.new ≡ started t.old cut penalised remaining multiplier }
{
    *t = started(*t, cut, penalised, remaining, multiplier);
}
