// Whole GPUs given to a job, and all that a job holds taken back.

ghost use Rattle.std.specs.Prelude.{◌≡◌, map, take};
ghost use Rattle.mig.specs.Owner.{freed};
ghost use Rattle.cluster.specs.Gpus.{with_owner, given, may_hold};

use mig::owner::{free_gpu, is_nobodys};
use model::gpu::Gpu;
use model::sizes::GPUS;
use tables::{read, write};

pub fn with_owner(g: Gpu, owner: u16) -> Gpu
    ensures { result ≡ with_owner owner g }
{
    Gpu { owner, ..g }
}

// The owner on each of the GPUs numbered by the first k ids.
pub fn give_gpus(gpus: &mut [Gpu; GPUS], ids: [u16; GPUS], k: usize, owner: u16)
    ensures { gpus.new ≡ given owner gpus.old (take k ids) }
{
    for id in &ids[..k.min(GPUS)] {
        let i = usize::from(*id);
        let g = with_owner(read(gpus, i), owner);
        write(gpus, i, g);
    }
}

// Where it says no, nothing of the GPU is the owner's.
fn may_hold(g: Gpu, owner: u16) -> bool
    ensures { result ≡ may_hold g owner }
{
    g.owner == owner || !is_nobodys(&g.owners)
}

pub fn free_all(gpus: &mut [Gpu; GPUS], owner: u16)
    ensures { gpus.new ≡ map (freed owner) gpus.old }
{
    for g in gpus.iter_mut() {
        if may_hold(*g, owner) {
            *g = free_gpu(*g, owner);
        }
    }
}
