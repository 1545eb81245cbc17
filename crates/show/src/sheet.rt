// Where the text of a trace goes: to standard output or, asked for a digest, into that alone.

use crate::digest::{START, digest};
use text::page::{Lost, write_page};
use text::put::{put_bytes, put_hex, put_newline};
use text::told::{Last, put_last};

// What is asked for: event lines, a digest in place of the text.
#[derive(Clone, Copy)]
pub struct Asked {
    pub events: bool,
    pub digest: bool,
}

// The text is printed, or only its digest so far is kept; lost: what was handed on last could not be written.
#[derive(Clone, Copy)]
pub enum Sheet {
    Printed,
    Digested(u64),
    Lost,
}

pub fn new_sheet(asked: Asked) -> Sheet {
    if asked.digest {
        Sheet::Digested(START)
    } else {
        Sheet::Printed
    }
}

// Hands on what stands before a place, also after a text that was lost.
pub fn hand_on(rt: &impl Print, out: &[u8], to: usize, sheet: Sheet) -> Sheet {
    match sheet {
        Sheet::Printed | Sheet::Lost => match write_page(rt, out, to) {
            Ok(()) => Sheet::Printed,
            Err(Lost) => Sheet::Lost,
        },
        Sheet::Digested(sum) => match out.get(..to) {
            Some(text) => Sheet::Digested(digest(sum, text)),
            None => Sheet::Lost,
        },
    }
}

// With a digest, how the trace ended and the digest.
fn put_sum(out: &mut [u8], sheet: Sheet, last: Last) -> usize {
    match sheet {
        Sheet::Printed | Sheet::Lost => 0,
        Sheet::Digested(sum) => {
            let to = put_last(out, 0, last);
            let to = put_bytes(out, to, b"# digest ");
            let to = put_hex(out, to, sum);
            put_newline(out, to)
        }
    }
}

// Prints what comes last of a trace; nothing where the text before it was lost.
pub fn close(rt: &impl Print, out: &mut [u8], sheet: Sheet, last: Last) -> Result<(), Lost> {
    if matches!(sheet, Sheet::Lost) {
        return Err(Lost);
    }
    let to = put_sum(out, sheet, last);
    let to = put_bytes(out, to, b".\n");
    write_page(rt, out, to)
}
