// The slices that a MIG job gets: free ones, or a GPU cut anew.

ghost use Rattle.std.specs.Prelude.{◌≡◌};
ghost use Rattle.mig.specs.Allocate.{whole_slices, enough_free, cut_helps, slices_placeable, free_elsewhere, new_slices, cut_for, slices_allocated};

use crate::slices::{cut_anew, free_slices, give_slices};
use crate::table::{first_idle, free_in_all, give_in_order};
use model::gpu::Gpu;
use model::sizes::GPUS;
use tables::{read, write};

// The table after, whether the job has its slices, and whether a GPU was cut for it.
#[derive(Clone, Copy)]
pub struct Slices {
    pub gpus: [Gpu; GPUS],
    pub placed: bool,
    pub cut: bool,
}

// The same of a job that has its slices, without the table of GPUs, which is lent.
#[derive(Clone, Copy)]
pub struct Given {
    pub cut: bool,
}

#[tactic(auto, unfolding(crate::specs::Allocate::enough_free))]
fn enough_free(gpus: &[Gpu; GPUS], n: usize, profile: u8, want: u8) -> bool
    ensures { result ≡ enough_free gpus.now n profile want }
{
    usize::from(want) <= free_in_all(gpus, n, profile)
}

#[tactic(auto, unfolding(crate::specs::Allocate::cut_helps))]
fn cut_helps(gpus: &[Gpu; GPUS], n: usize, most: u8, want: u8) -> bool
    ensures { result ≡ cut_helps gpus.now n most want }
{
    want <= most && first_idle(gpus, n) < n.min(GPUS)
}

pub fn slices_placeable(gpus: &[Gpu; GPUS], n: usize, profile: u8, most: u8, want: u8) -> bool
    ensures { result ≡ slices_placeable gpus.now n profile most want }
{
    enough_free(gpus, n, profile, want) || cut_helps(gpus, n, most, want)
}

// The free slices of the profile on the GPUs but one.
#[tactic(auto, unfolding(crate::specs::Allocate::free_elsewhere))]
fn free_elsewhere(gpus: &[Gpu; GPUS], n: usize, profile: u8, at: usize) -> usize
    ensures { result ≡ free_elsewhere gpus.now n profile at }
{
    free_in_all(gpus, n, profile).saturating_sub(free_slices(read(gpus, at), profile))
}

// The GPU cut anew, with those of its new slices given that the other GPUs leave wanting.
#[tactic(auto, unfolding(crate::specs::Allocate::new_slices))]
fn new_slices(g: Gpu, profile: u8, want: u8, elsewhere: usize, owner: u16) -> Gpu
    ensures { result ≡ new_slices g profile want elsewhere owner }
{
    let left = usize::from(want).saturating_sub(elsewhere);
    give_slices(cut_anew(g, profile, want), profile, left, owner)
}

// The first idle GPU cut anew; free slices on the others first, then new ones.
#[tactic(auto, unfolding(crate::specs::Allocate::cut_for))]
fn cut_for(gpus: &mut [Gpu; GPUS], n: usize, profile: u8, want: u8, owner: u16)
    ensures { gpus.new ≡ cut_for gpus.old n profile want owner }
{
    let at = first_idle(gpus, n);
    let elsewhere = free_elsewhere(gpus, n, profile, at);
    let g = new_slices(read(gpus, at), profile, want, elsewhere, owner);
    give_in_order(gpus, n, profile, usize::from(want), owner, at);
    write(gpus, at, g);
}

#[tactic(auto, unfolding(crate::specs::Allocate::slices_allocated))]
pub fn allocate_slices(
    gpus: &mut [Gpu; GPUS],
    n: usize,
    profile: u8,
    most: u8,
    want: u8,
    owner: u16,
) -> Option<Given>
    ensures { whole_slices result gpus.new ≡ slices_allocated gpus.old n profile most want owner }
{
    if enough_free(gpus, n, profile, want) {
        give_in_order(gpus, n, profile, usize::from(want), owner, GPUS);
        Some(Given { cut: false })
    } else if cut_helps(gpus, n, most, want) {
        cut_for(gpus, n, profile, want, owner);
        Some(Given { cut: true })
    } else {
        None
    }
}
