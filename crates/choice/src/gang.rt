// The gang choice: the nodes that a gang takes, and its share of each.

ghost use Rattle.std.specs.Prelude.{◌≡◌, ◌<◌};
ghost use Rattle.laws.specs.Search.{those};
ghost use Rattle.eligible.specs.Chosen.{chosen, list_of, tally_of};
ghost use Rattle.choice.specs.Gang.{gang_node, gang_nodes, gang_choice};

use crate::share::node_share;
use eligible::chosen::{Chosen, KEYS, append, first_of, tally, those, with_key};
use fit::first::{Choice, take_these};
use model::sizes::{GPUS, NODES};

// The node k, of which counts says how many it has, has enough for the gang, with a penalty or without, as asked.
#[tactic(auto, using(crate::specs::Cases::node_few, crate::specs::Cases::node_enough))]
fn is_gang_node(
    e: Chosen,
    counts: &[u16; KEYS],
    nodes: [u16; GPUS],
    groups: [u16; GPUS],
    per: usize,
    penalised: bool,
    k: usize,
) -> bool
    requires counts_are { counts.now ≡ tally_of nodes (list_of e) }
    requires counted { k < 257 }
    ensures { result ≡ gang_node nodes groups (list_of e) per penalised k }
{
    // most nodes fall out at the count
    per <= usize::from(counts[k])
        && node_share(with_key(e, nodes, k as u16), groups, per).penalised == penalised
}

// Those nodes, by number.
fn those_nodes(
    e: Chosen,
    nodes: [u16; GPUS],
    groups: [u16; GPUS],
    per: usize,
    penalised: bool,
) -> Chosen
    ensures { result ≡ chosen (those (gang_node nodes groups (list_of e) per penalised) 32 0) }
{
    let counts = tally(e, nodes);
    those(NODES, |k| {
        is_gang_node(e, &counts, nodes, groups, per, penalised, k)
    })
}

// The g nodes that the gang takes: those without a penalty first, then by number.
#[tactic(auto, using(crate::specs::Cases::order_held))]
fn gang_nodes(e: Chosen, nodes: [u16; GPUS], groups: [u16; GPUS], per: usize, g: usize) -> Chosen
    ensures { result ≡ chosen (gang_nodes nodes groups (list_of e) per g) }
{
    let whole = those_nodes(e, nodes, groups, per, false);
    let part = those_nodes(e, nodes, groups, per, true);
    first_of(append(whole, part), g)
}

// The gang's share of each of its nodes; one with a penalty penalises the job.
pub fn gang_choice(
    e: Chosen,
    nodes: [u16; GPUS],
    groups: [u16; GPUS],
    per: usize,
    g: usize,
) -> Choice
    ensures { result ≡ gang_choice nodes groups (list_of e) per g }
{
    let taken = gang_nodes(e, nodes, groups, per, g);
    let mut all = Chosen::new();
    let mut penalised = false;
    for k in taken.numbers() {
        let share = node_share(with_key(e, nodes, *k), groups, per);
        all.extend(share.chosen.numbers());
        penalised |= share.penalised;
    }
    take_these(all, penalised)
}
