// A line for each GPU: who holds it, or its slices.

use crate::fields::{maybe, number};
use model::gpu::Gpu;
use text::put::{put_bytes, put_newline};

fn slice_owners(out: &mut [u8], at: usize, owners: &[u16]) -> usize {
    let mut to = at;
    for owner in owners {
        to = maybe(out, to, u64::from(*owner));
    }
    to
}

pub fn owner(out: &mut [u8], at: usize, i: usize, g: &Gpu) -> usize {
    let to = put_bytes(out, at, b"# owner");
    let to = number(out, to, i as u64);
    let to = maybe(out, to, u64::from(g.owner));
    let to = maybe(out, to, u64::from(g.profile));
    let to = number(out, to, u64::from(g.slices));
    let slices = g.owners.len().min(usize::from(g.slices));
    let to = slice_owners(out, to, &g.owners[..slices]);
    put_newline(out, to)
}
