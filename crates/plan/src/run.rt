// A trace planned to its end by the library's run, and its lines.

use gpu_planner::planner_run;
use text::page::{Lost, turn_page};
use text::told::{Last, put_last, put_told};

// A line a decision; the page is written whenever it is nearly full. Answers the place after the lines that it holds then.
fn put_all(
    rt: &impl Print,
    out: &mut [u8],
    at: usize,
    decisions: &[[u64; 4]],
) -> Result<usize, Lost> {
    let mut to = at;
    for decision in decisions {
        let after = put_told(out, to, *decision);
        to = turn_page(rt, out, after)?;
    }
    Ok(to)
}

// Of a plan that ran to its end the steps are told, of a refused load the place.
fn last_of(answer: u64, place: u64, steps: u64) -> Last {
    match answer {
        0 => Last::End { steps },
        1..10 => Last::LoadRefused {
            number: answer,
            place,
        },
        _ => Last::StepRefused { number: answer },
    }
}

// The lines of a trace, from a place of the page on. The words are those that a run is lent: a head of four, and the decisions.
pub fn plan_trace(
    rt: &impl Print,
    bytes: &[u8],
    words: &mut [u64],
    out: &mut [u8],
    at: usize,
) -> Result<usize, Lost> {
    let answer = planner_run(bytes, words);
    let Some((&[_, place, steps, decisions], told)) = words.split_first_chunk::<4>() else {
        return Err(Lost);
    };
    let all = told.as_chunks::<4>().0;
    let to = put_all(rt, out, at, &all[..all.len().min(decisions as usize)])?;
    Ok(put_last(out, to, last_of(answer, place, steps)))
}
