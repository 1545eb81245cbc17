// The choice of one group over all nodes.

ghost use Rattle.std.specs.Prelude.{◌≡◌};
ghost use Rattle.eligible.specs.Chosen.{list_of};
ghost use Rattle.fit.specs.Group.{counted, fullest, group_choice};

use crate::first::{Choice, take_these};
use eligible::chosen::{Chosen, KEYS, first_of, tally, with_key};
use model::sizes::GPUS;
use tables::read;

// What a tally says of a key.
pub fn counted_at(counts: &[u16], k: usize) -> usize
    ensures { result ≡ counted counts.now k }
{
    usize::from(read(counts, k))
}

// The key that is counted most often, the first on a tie.
pub fn fullest_key(counts: &[u16; KEYS]) -> u16
    ensures { result ≡ fullest counts.now }
{
    let mut best = 0;
    for (k, n) in counts.iter().enumerate() {
        if counts[best] < *n {
            best = k;
        }
    }
    best as u16
}

// The first count of the fullest group if it has as many; else first fit, with a penalty.
pub fn group_choice(e: Chosen, groups: [u16; GPUS], count: usize) -> Choice
    ensures { result ≡ group_choice groups (list_of e) count }
{
    let counts = tally(e, groups);
    let key = fullest_key(&counts);
    let same = with_key(e, groups, key);
    if count <= same.count {
        take_these(first_of(same, count), false)
    } else {
        take_these(first_of(e, count), true)
    }
}
