// The share of a gang that one node takes.

ghost use Rattle.std.specs.Prelude.{◌≡◌};
ghost use Rattle.eligible.specs.Chosen.{list_of};
ghost use Rattle.fit.specs.First.{took};
ghost use Rattle.choice.specs.Share.{parted, share};

use eligible::chosen::{Chosen, first_of, tally, with_key};
use fit::first::{Choice, take_these};
use model::sizes::GPUS;

// Of a node's eligible GPUs the first per of the first group with enough; if none has, the first per, with a penalty.
pub fn node_share(here: Chosen, groups: [u16; GPUS], per: usize) -> Choice
    ensures { result ≡ took (share groups per (list_of here)) (parted groups per (list_of here)) }
{
    match tally(here, groups)
        .iter()
        .position(|n| per <= usize::from(*n))
    {
        Some(key) => take_these(first_of(with_key(here, groups, key as u16), per), false),
        None => take_these(first_of(here, per), true),
    }
}
