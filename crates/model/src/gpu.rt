// A GPU of the table: what the trace says of it, its owner and the owners of its slices.

ghost use Rattle.std.specs.Prelude.{◌≡◌};
ghost use Rattle.model.specs.Gpu.{no_gpu};

use crate::sizes::SLICES;
use tables::Entry;

// An owner is a job's number plus 1, or 0 for nobody; group and profile are stored likewise.
#[repr(C)]
#[derive(Clone, Copy)]
pub struct Gpu {
    pub node: u8,
    pub kind: u8,
    pub memory: f64,
    pub group: u16,
    pub mig: bool,
    pub owner: u16,
    pub profile: u8,
    pub slices: u8,
    pub owners: [u16; SLICES],
}

impl Entry for Gpu {
    ghost none = { no_gpu };

    fn none() -> Gpu {
        Gpu {
            node: 0,
            kind: 0,
            memory: 0.0,
            group: 0,
            mig: false,
            owner: 0,
            profile: 0,
            slices: 0,
            owners: [0; SLICES],
        }
    }
}
