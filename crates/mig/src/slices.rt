// The slices of one GPU: free ones counted and given, and the GPU cut anew. A profile is its number plus 1, as the GPU and the job hold it.

ghost use Rattle.std.specs.Prelude.{◌≡◌};
ghost use Rattle.mig.specs.Slices.{slice_count, free_slice, free_slices, cut_anew, given_slices};

use model::gpu::Gpu;
use model::sizes::SLICES;
use tables::{read, write};

pub fn slice_count(g: Gpu) -> usize
    ensures { result ≡ slice_count g }
{
    usize::from(g.slices).min(SLICES)
}

// Whether the slice is one of the profile and nobody's.
pub fn is_free_slice(g: Gpu, profile: u8, i: usize) -> bool
    ensures { result ≡ free_slice g profile i }
{
    g.profile == profile && read(&g.owners, i) == 0
}

pub fn free_slices(g: Gpu, profile: u8) -> usize
    ensures { result ≡ free_slices g profile }
{
    (0..slice_count(g))
        .filter(|i| is_free_slice(g, profile, *i))
        .count()
}

// Nobody's, and cut for the profile into so many free slices.
#[tactic(auto, unfolding(crate::specs::Slices::cut_anew))]
pub fn cut_anew(g: Gpu, profile: u8, slices: u8) -> Gpu
    ensures { result ≡ cut_anew g profile slices }
{
    Gpu {
        owner: 0,
        profile,
        slices,
        owners: [0; SLICES],
        ..g
    }
}

// The first `most` free slices of the profile go to the owner.
pub fn give_slices(g: Gpu, profile: u8, most: usize, owner: u16) -> Gpu
    ensures { result ≡ given_slices g profile most owner }
{
    let mut owners = g.owners;
    let free = (0..slice_count(g)).filter(|i| is_free_slice(g, profile, *i));
    for i in free.take(most) {
        write(&mut owners, i, owner);
    }
    Gpu { owners, ..g }
}
