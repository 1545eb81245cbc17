// Shows each trace of its standard input step by step, as compare/FORMAT.md says: tables, states, decisions, how it ended.

#![tactic(auto)]

mod digest;
mod entries;
mod events;
mod fields;
mod jobs;
mod lines;
mod owners;
mod run;
mod sheet;
mod state;
mod words;

use run::show_trace;
use sheet::Asked;
use std::io::Read;
use text::frame::next_frame;
use text::page::Lost;
use words::asked;

// One byte over what a trace may have is enough to refuse it by.
const KEPT: usize = 65537;

// A bare frame asks for no events. The turns are counted because nothing says that the input ends.
fn show_all(
    rt: &impl Print,
    input: &mut impl Read,
    buffer: &mut [u8],
    out: &mut [u8],
    all: Asked,
) -> Result<(), Lost> {
    for _ in 0..u64::MAX {
        let Some(frame) = next_frame(input, buffer) else {
            return Ok(());
        };
        let these = Asked {
            events: all.events && !frame.bare,
            ..all
        };
        show_trace(rt, &buffer[..frame.length], out, these)?;
    }
    Ok(())
}

fn main(rt: HostRuntime) -> std::io::Result<()> {
    let Some(all) = asked(&rt) else {
        return eprintln!(rt; "usage: show [--details] [--events] [--digest] [--batch] < frames");
    };
    let mut input = rt.reader();
    let mut buffer = [0u8; KEPT];
    let mut out = io::large_buffer();
    // Where the lines cannot be written, nobody is left to tell.
    let _ = show_all(&rt, &mut input, &mut buffer, &mut out, all);
    Ok(())
}
