// Why a whole-GPU job cannot be placed, if it cannot.

ghost use Rattle.std.specs.Prelude.{◌≡◌, ◌<◌, length};
ghost use Rattle.eligible.specs.Chosen.{list_of};
ghost use Rattle.choice.specs.Why.{is_gang, candidates, why_not_gang, why_not};

use eligible::chosen::{Chosen, tally};
use model::job::Ask;
use model::sizes::{GPUS, NODES};

#[derive(Clone, Copy)]
pub enum Why {
    NoCount,
    NotMultiple,
    TooFew,
}

// The gang flag with gang nodes.
pub fn is_gang(ask: Ask) -> bool
    ensures { result ≡ is_gang ask }
{
    ask.gang && ask.nodes > 0
}

// How many nodes have at least per eligible GPUs.
fn count_nodes(e: Chosen, nodes: [u16; GPUS], per: usize) -> usize
    ensures { result ≡ length (candidates nodes (list_of e) per) }
{
    let counts = tally(e, nodes);
    counts
        .iter()
        .take(NODES)
        .filter(|n| per <= usize::from(**n))
        .count()
}

// The cause for a gang of count GPUs on g nodes.
#[tactic(auto, unfolding(crate::specs::Why::why_not_gang))]
fn why_not_gang(e: Chosen, nodes: [u16; GPUS], count: usize, g: usize) -> Option<Why>
    requires { 0 < g }
    ensures { result ≡ why_not_gang nodes (list_of e) count g }
{
    if count % g != 0 {
        Some(Why::NotMultiple)
    } else if g <= count_nodes(e, nodes, count / g) {
        None
    } else {
        Some(Why::TooFew)
    }
}

// The cause for a job among its eligible GPUs.
#[tactic(auto, unfolding(crate::specs::Why::why_not))]
pub fn why_not(e: Chosen, nodes: [u16; GPUS], ask: Ask) -> Option<Why>
    ensures { result ≡ why_not nodes (list_of e) ask }
{
    let count = usize::from(ask.count);
    if count == 0 {
        Some(Why::NoCount)
    } else if is_gang(ask) {
        why_not_gang(e, nodes, count, usize::from(ask.nodes))
    } else if count <= e.numbers().len() {
        None
    } else {
        Some(Why::TooFew)
    }
}
