// The keys of the GPUs: where each stands, and with whom it forms a group.

ghost use Rattle.std.specs.Prelude.{◌≡◌};
ghost use Rattle.eligible.specs.Keys.{node_keys, group_keys};

use model::gpu::Gpu;
use model::sizes::GPUS;

// Each GPU's node.
#[tactic(auto, unfolding(crate::specs::Keys::node_keys))]
pub fn node_keys(gpus: &[Gpu; GPUS]) -> [u16; GPUS]
    ensures { result ≡ node_keys gpus.now }
{
    gpus.map(|g| u16::from(g.node))
}

// Each GPU's group, 0 for none.
#[tactic(auto, unfolding(crate::specs::Keys::group_keys))]
pub fn group_keys(gpus: &[Gpu; GPUS]) -> [u16; GPUS]
    ensures { result ≡ group_keys gpus.now }
{
    gpus.map(|g| g.group)
}
