// The five running totals.

ghost use Rattle.std.specs.Prelude.{◌≡◌};
ghost use Rattle.model.specs.Totals.{no_totals};

#[repr(C)]
#[derive(Clone, Copy)]
pub struct Totals {
    pub evictions: u64,
    pub cuts: u64,
    pub penalised: u64,
    pub longest: u64,
    pub added: f64,
}

pub fn no_totals() -> Totals
    ensures { result ≡ no_totals }
{
    Totals {
        evictions: 0,
        cuts: 0,
        penalised: 0,
        longest: 0,
        added: 0.0,
    }
}
