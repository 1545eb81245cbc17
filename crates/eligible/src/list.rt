// The GPUs that a job may take, in table order.

ghost use Rattle.std.specs.Prelude.{◌≡◌};
ghost use Rattle.eligible.specs.Chosen.{chosen};
ghost use Rattle.eligible.specs.Eligible.{eligibles};

use crate::chosen::{Chosen, those};
use crate::rule::eligible_gpu;
use model::gpu::Gpu;
use model::job::Ask;
use model::sizes::{GPUS, NODES};
use tables::read;

// Of the first n GPUs those that the job may take.
pub fn eligible_gpus(gpus: &[Gpu; GPUS], n: usize, sites: [u8; NODES], ask: Ask) -> Chosen
    ensures { result ≡ chosen (eligibles gpus.now n sites ask) }
{
    those(n, |i| {
        let g = read(gpus, i);
        let site = read(&sites, usize::from(g.node));
        eligible_gpu(ask, site, g)
    })
}
