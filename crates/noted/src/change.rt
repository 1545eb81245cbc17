// What an eviction and a start make of the totals, computed by value.

ghost use Rattle.std.specs.Prelude.{◌≡◌};
ghost use Rattle.noted.specs.Noted.{more, grown, evicted, started};

use model::totals::Totals;

fn more(n: u64, so: bool) -> u64
    ensures { result ≡ more n so }
{
    if so { n.wrapping_add(1) } else { n }
}

fn grown(added: f64, penalised: bool, remaining: f64, multiplier: f64) -> f64
    ensures { result ≡ grown added penalised remaining multiplier }
{
    if penalised {
        added + remaining * (multiplier - 1.0)
    } else {
        added
    }
}

// An eviction counts, and its victim has joined the queue, which is so long now.
#[tactic(auto, unfolding(crate::specs::Noted::evicted))]
pub fn evicted(t: Totals, queue: u64) -> Totals
    ensures { result ≡ evicted t queue }
{
    Totals {
        evictions: t.evictions.wrapping_add(1),
        longest: t.longest.max(queue),
        ..t
    }
}

// A start counts its cut, its penalty, and the runtime that the penalty adds.
#[tactic(auto, unfolding(crate::specs::Noted::started))]
pub fn started(t: Totals, cut: bool, penalised: bool, remaining: f64, multiplier: f64) -> Totals
    ensures { result ≡ started t cut penalised remaining multiplier }
{
    Totals {
        cuts: more(t.cuts, cut),
        penalised: more(t.penalised, penalised),
        added: grown(t.added, penalised, remaining, multiplier),
        ..t
    }
}
