// A line for each entry of a table.

use crate::fields::{bits, flag, maybe, number, priority};
use model::gpu::Gpu;
use model::job::{Ask, Job};
use model::setting::Options;
use text::put::{put_bytes, put_newline};

// The lines of a table's first n entries, each as `line` puts it.
pub fn each<T, F: Fn(&mut [u8], usize, usize, &T) -> usize>(
    out: &mut [u8],
    at: usize,
    table: &[T],
    n: usize,
    line: F,
) -> usize
    requires { F.IsAlwaysCallable line }
{
    let mut to = at;
    for (i, x) in table.iter().enumerate().take(n) {
        to = line(out, to, i, x);
    }
    to
}

// What begins an entry's line: its table and its number.
fn entry(out: &mut [u8], at: usize, table: &[u8], i: usize) -> usize {
    let to = put_bytes(out, at, table);
    number(out, to, i as u64)
}

pub fn node(out: &mut [u8], at: usize, i: usize, site: &u8) -> usize {
    let to = entry(out, at, b"# node", i);
    let to = maybe(out, to, u64::from(*site));
    put_newline(out, to)
}

pub fn gpu(out: &mut [u8], at: usize, i: usize, g: &Gpu) -> usize {
    let to = entry(out, at, b"# gpu", i);
    let to = number(out, to, u64::from(g.node));
    let to = number(out, to, u64::from(g.kind));
    let to = bits(out, to, g.memory);
    let to = maybe(out, to, u64::from(g.group));
    let to = flag(out, to, g.mig);
    put_newline(out, to)
}

// A quota is kept plus 1, 0 where there is none, which has no line.
pub fn quota(out: &mut [u8], at: usize, tenant: usize, kept: &u64) -> usize {
    let Some(quota) = kept.checked_sub(1) else {
        return at;
    };
    let to = entry(out, at, b"# quota", tenant);
    let to = number(out, to, quota);
    put_newline(out, to)
}

// A profile that is not loaded has most 0, and no line.
pub fn profile(out: &mut [u8], at: usize, i: usize, most: &u8) -> usize {
    if *most == 0 {
        return at;
    }
    let to = entry(out, at, b"# profile", i);
    let to = number(out, to, u64::from(*most));
    put_newline(out, to)
}

fn ask_amounts(out: &mut [u8], at: usize, a: &Ask) -> usize {
    let to = bits(out, at, a.arrival);
    let to = bits(out, to, a.duration);
    let to = priority(out, to, a.priority);
    let to = number(out, to, u64::from(a.count));
    bits(out, to, a.memory)
}

fn ask_places(out: &mut [u8], at: usize, a: &Ask) -> usize {
    let to = maybe(out, at, u64::from(a.kind));
    let to = maybe(out, to, u64::from(a.site));
    let to = maybe(out, to, u64::from(a.tenant));
    let to = flag(out, to, a.gang);
    let to = number(out, to, u64::from(a.nodes));
    flag(out, to, a.network)
}

fn ask_limits(out: &mut [u8], at: usize, a: &Ask) -> usize {
    let to = bits(out, at, a.timeout);
    let to = maybe(out, to, u64::from(a.profile));
    number(out, to, u64::from(a.slices))
}

pub fn ask(out: &mut [u8], at: usize, i: usize, j: &Job) -> usize {
    let to = entry(out, at, b"# ask", i);
    let to = ask_amounts(out, to, &j.ask);
    let to = ask_places(out, to, &j.ask);
    let to = ask_limits(out, to, &j.ask);
    put_newline(out, to)
}

pub fn options(out: &mut [u8], at: usize, o: &Options) -> usize {
    let to = put_bytes(out, at, b"# options");
    let to = bits(out, to, o.seconds);
    let to = bits(out, to, o.penalty);
    let to = bits(out, to, o.multiplier);
    let to = flag(out, to, o.best);
    let to = flag(out, to, o.aware);
    put_newline(out, to)
}
