// The rule that says which whole GPUs a job may take.

ghost use Rattle.std.specs.Prelude.{◌≡◌};
ghost use Rattle.eligible.specs.Rule.{enough, asked, unowned, uncut, eligible};

use model::gpu::Gpu;
use model::job::Ask;

// Memory: 0.0 asks for none.
fn is_enough(want: f64, have: f64) -> bool
    ensures { result ≡ enough want have }
{
    want == 0.0 || want <= have
}

// A type or a site, each stored plus 1: 0 asks for nothing.
fn is_asked(want: u16, have: u16) -> bool
    ensures { result ≡ asked want have }
{
    want == 0 || have == want
}

fn is_unowned(g: Gpu) -> bool
    ensures { result ≡ unowned g }
{
    g.owner == 0
}

fn is_uncut(g: Gpu) -> bool
    ensures { result ≡ uncut g }
{
    g.slices == 0
}

// The job may have the GPU g, whose node stands at the given site.
#[tactic(auto, unfolding(crate::specs::Rule::eligible))]
pub fn eligible_gpu(ask: Ask, site: u8, g: Gpu) -> bool
    ensures { result ≡ eligible ask site g }
{
    is_unowned(g)
        && is_uncut(g)
        && is_enough(ask.memory, g.memory)
        && is_asked(ask.kind, u16::from(g.kind) + 1)
        && is_asked(u16::from(ask.site), u16::from(site))
}
