// The GPUs that a whole-GPU job gets.

ghost use Rattle.std.specs.Prelude.{◌≡◌, List, ℕ};
ghost use Rattle.eligible.specs.Chosen.{list_of};
ghost use Rattle.eligible.specs.Keys.{node_keys, group_keys};
ghost use Rattle.choice.specs.Why.{why_not};
ghost use Rattle.choice.specs.Choose.{choice_of, why_not_here, choose};

use crate::gang::gang_choice;
use crate::why::{Why, is_gang, why_not};
use eligible::chosen::Chosen;
use eligible::keys::{group_keys, node_keys};
use eligible::list::eligible_gpus;
use fit::best::best_fit;
use fit::first::{Choice, first_fit};
use fit::group::group_choice;
use model::gpu::Gpu;
use model::job::Ask;
use model::sizes::{GPUS, NODES};

// The choice among the eligible GPUs e for a job that has room. Keys are made where they are looked at.
#[tactic(auto, unfolding(crate::specs::Choose::choice_of))]
fn choice_of(e: Chosen, gpus: &[Gpu; GPUS], ask: Ask, best: bool) -> Choice
    ensures { result ≡ choice_of (node_keys gpus.now) (group_keys gpus.now) (list_of e) ask best }
{
    let count = usize::from(ask.count);
    if is_gang(ask) {
        let g = usize::from(ask.nodes);
        gang_choice(e, node_keys(gpus), group_keys(gpus), count / g, g)
    } else if ask.gang || ask.network {
        group_choice(e, group_keys(gpus), count)
    } else if best {
        best_fit(e, node_keys(gpus), count)
    } else {
        first_fit(e, count)
    }
}

// The node of each GPU for a gang; others have no use for them.
#[tactic(auto, using(crate::specs::WhyCases::why_any_keys))]
pub fn keys_for(gpus: &[Gpu; GPUS], ask: Ask) -> [u16; GPUS]
    ensures { (l : List ℕ) → why_not result l ask ≡ why_not (node_keys gpus.now) l ask }
{
    if is_gang(ask) {
        node_keys(gpus)
    } else {
        [0; GPUS]
    }
}

// Why the job cannot be placed on the first n GPUs as they are, if it cannot.
#[tactic(auto, using(crate::specs::WhyCases::why_here))]
pub fn why_not_here(gpus: &[Gpu; GPUS], n: usize, sites: [u8; NODES], ask: Ask) -> Option<Why>
    ensures { result ≡ why_not_here gpus.now n sites ask }
{
    why_not(eligible_gpus(gpus, n, sites, ask), keys_for(gpus, ask), ask)
}

// Which of the first n GPUs the job gets, if it can be placed.
#[tactic(auto, using(crate::specs::WhyCases::choose_yes, crate::specs::WhyCases::choose_no))]
pub fn choose_gpus(
    gpus: &[Gpu; GPUS],
    n: usize,
    sites: [u8; NODES],
    ask: Ask,
    best: bool,
) -> Option<Choice>
    ensures { result ≡ choose gpus.now n sites ask best }
{
    let e = eligible_gpus(gpus, n, sites, ask);
    match why_not(e, keys_for(gpus, ask), ask) {
        None => Some(choice_of(e, gpus, ask, best)),
        Some(_) => None,
    }
}
