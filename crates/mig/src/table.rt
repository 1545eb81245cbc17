// Slices over the table of GPUs: the first GPU to cut anew, free slices counted, and given in table order.

ghost use Rattle.std.specs.Prelude.{◌≡◌};
ghost use Rattle.mig.specs.Table.{may_cut, first_idle, free_in_all, gives, given_in_order};

use crate::owner::is_idle;
use crate::slices::{free_slices, give_slices};
use model::gpu::Gpu;
use model::sizes::GPUS;

pub fn may_cut(g: Gpu) -> bool
    ensures { result ≡ may_cut g }
{
    g.mig && is_idle(g)
}

// The number of the first GPU that may be cut anew; for none, how many GPUs there are.
pub fn first_idle(gpus: &[Gpu; GPUS], n: usize) -> usize
    ensures { result ≡ first_idle gpus.now n }
{
    let m = n.min(GPUS);
    gpus[..m].iter().position(|g| may_cut(*g)).unwrap_or(m)
}

pub fn free_in_all(gpus: &[Gpu; GPUS], n: usize, profile: u8) -> usize
    ensures { result ≡ free_in_all gpus.now n profile }
{
    gpus[..n.min(GPUS)]
        .iter()
        .map(|g| free_slices(*g, profile))
        .sum()
}

// How many of the slices still wanted this GPU gives.
#[tactic(auto, unfolding(crate::specs::Table::gives))]
fn gives(g: Gpu, profile: u8, left: usize, i: usize, except: usize) -> usize
    ensures { result ≡ gives g profile left i except }
{
    if i == except {
        0
    } else {
        left.min(free_slices(g, profile))
    }
}

// The first `want` free slices in table order, but for one GPU's, go to the owner.
pub fn give_in_order(
    gpus: &mut [Gpu; GPUS],
    n: usize,
    profile: u8,
    want: usize,
    owner: u16,
    except: usize,
)
    ensures { gpus.new ≡ given_in_order gpus.old n profile want owner except }
{
    let mut left = want;
    for (i, g) in gpus[..n.min(GPUS)].iter_mut().enumerate() {
        let k = gives(*g, profile, left, i, except);
        *g = give_slices(*g, profile, k, owner);
        left -= k;
    }
}
