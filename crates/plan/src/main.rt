// Plans the trace on standard input and prints its decisions; with --batch, trace after trace.

#![tactic(auto)]

mod run;

use gpu_planner::RUN_WORDS;
use run::plan_trace;
use std::env::Env;
use std::io::Read;
use text::command::{arg, arg_count};
use text::frame::next_frame;
use text::input::read_full;
use text::page::{Lost, turn_page, write_page};
use text::put::put_bytes;

// One byte over what a trace may have is enough to refuse it by.
const KEPT: usize = 65537;

fn plan_one(
    rt: &impl Print,
    input: &mut impl Read,
    buffer: &mut [u8],
    words: &mut [u64],
    out: &mut [u8],
) -> Result<(), Lost> {
    let n = read_full(input, buffer);
    let to = plan_trace(rt, &buffer[..n], words, out, 0)?;
    write_page(rt, out, to)
}

// The turns are counted because nothing says that the input ends.
fn plan_all(
    rt: &impl Print,
    input: &mut impl Read,
    buffer: &mut [u8],
    words: &mut [u64],
    out: &mut [u8],
) -> Result<(), Lost> {
    let mut to = 0;
    for _ in 0..u64::MAX {
        let Some(frame) = next_frame(input, buffer) else {
            return write_page(rt, out, to);
        };
        to = plan_trace(rt, &buffer[..frame.length], words, out, to)?;
        to = put_bytes(out, to, b".\n");
        to = turn_page(rt, out, to)?;
    }
    Ok(())
}

// Whether the first word after the program's name is --batch.
fn is_batch(rt: &impl Env) -> bool {
    let mut word = [0u8; 16];
    let n = arg(rt, 1, &mut word);
    &word[..n] == b"--batch".as_slice()
}

fn main(rt: HostRuntime) -> std::io::Result<()> {
    let mut input = rt.reader();
    let mut buffer = [0u8; KEPT];
    let mut words = [0u64; RUN_WORDS];
    let mut out = io::large_buffer();
    // Where the lines cannot be written, nobody is left to tell.
    let _ = match arg_count(&rt) {
        0 | 1 => plan_one(&rt, &mut input, &mut buffer, &mut words, &mut out),
        2 if is_batch(&rt) => plan_all(&rt, &mut input, &mut buffer, &mut words, &mut out),
        _ => return eprintln!(rt; "usage: plan [--batch] < trace"),
    };
    Ok(())
}
