// Who owns a GPU or a slice of it: idle GPUs, and taking away what a job owns.

ghost use Rattle.std.specs.Prelude.{◌≡◌};
ghost use Rattle.mig.specs.Owner.{nobodys, idle, without_owner, freed};

use model::gpu::Gpu;

// Whether none of the slices is owned.
pub fn is_nobodys(owners: &[u16]) -> bool
    ensures { result ≡ nobodys owners.now }
{
    owners.iter().all(|x| *x == 0)
}

// Wholly idle, cut before or not.
#[tactic(auto, unfolding(crate::specs::Owner::idle))]
pub fn is_idle(g: Gpu) -> bool
    ensures { result ≡ idle g }
{
    g.owner == 0 && is_nobodys(&g.owners)
}

// An owner, or nobody if it is this one.
pub fn without_owner(owner: u16, x: u16) -> u16
    ensures { result ≡ without_owner owner x }
{
    if x == owner { 0 } else { x }
}

// All that the owner holds on this GPU is nobody's; its cuts stay.
#[tactic(auto, unfolding(crate::specs::Owner::freed))]
pub fn free_gpu(g: Gpu, owner: u16) -> Gpu
    ensures { result ≡ freed owner g }
{
    Gpu {
        owner: without_owner(owner, g.owner),
        owners: g.owners.map(|x| without_owner(owner, x)),
        ..g
    }
}
