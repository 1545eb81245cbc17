// Best fit.

ghost use Rattle.std.specs.Prelude.{◌≡◌, false, take};
ghost use Rattle.eligible.specs.Chosen.{chosen, list_of};
ghost use Rattle.fit.specs.First.{took};
ghost use Rattle.fit.specs.Best.{left_over, best_node, rank, rank_keys, fullest_first, best_fit};

use crate::first::{Choice, take_these};
use crate::group::counted_at;
use eligible::chosen::{Chosen, KEYS, first_of, tally, with_key};
use model::sizes::{GPUS, NODES};
use order::sort_front;

// More than any node can have left over.
const NOT_HELD: usize = 129;

// What the job leaves over on the node k, by the counts of eligible GPUs.
fn left_over(counts: &[u16; KEYS], count: usize, k: usize) -> usize
    ensures { result ≡ left_over counts.now count k }
{
    counted_at(counts, k).checked_sub(count).unwrap_or(NOT_HELD)
}

// The node with least left over, the lowest number on a tie.
pub fn best_node(counts: &[u16; KEYS], count: usize) -> u16
    ensures { result ≡ best_node counts.now count }
{
    let mut best = 0;
    for k in 1..NODES {
        if left_over(counts, count, k) < left_over(counts, count, best) {
            best = k;
        }
    }
    best as u16
}

// The rank of a node by its count.
fn rank_of(counts: &[u16; KEYS], k: u16) -> u64
    ensures { result ≡ rank counts.now k }
{
    GPUS.saturating_sub(counted_at(counts, usize::from(k))) as u64
}

// The rank of each GPU's node by its count: the more, the lower.
fn rank_keys(counts: &[u16; KEYS], nodes: [u16; GPUS]) -> [u64; GPUS]
    ensures { result ≡ rank_keys counts.now nodes }
{
    nodes.map(|k| rank_of(counts, k))
}

// The same numbers, wider.
fn wide_keys(nodes: [u16; GPUS]) -> [u64; GPUS]
    ensures { result ≡ nodes }
{
    nodes.map(|k| u64::from(k))
}

// The first count of the eligible GPUs node by node: the node with most of them first, then by number.
fn fullest_first(e: Chosen, nodes: [u16; GPUS], count: usize) -> Chosen
    ensures { result ≡ chosen (take count (fullest_first nodes (list_of e))) }
{
    let counts = tally(e, nodes);
    let first = rank_keys(&counts, nodes);
    let second = wide_keys(nodes);
    let ids = sort_front(false, &first, &second, e.ids, e.count);
    first_of(Chosen { ids, ..e }, count)
}

// The first count on the node with least left over; if none holds all, the first count node by node.
pub fn best_fit(e: Chosen, nodes: [u16; GPUS], count: usize) -> Choice
    ensures { result ≡ took (best_fit nodes (list_of e) count) false }
{
    let counts = tally(e, nodes);
    let node = best_node(&counts, count);
    let same = with_key(e, nodes, node);
    if count <= same.count {
        take_these(first_of(same, count), false)
    } else {
        take_these(fullest_first(e, nodes, count), false)
    }
}
