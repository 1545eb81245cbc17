// The words of the command.

use crate::sheet::Asked;
use std::env::Env;
use text::command::{arg, arg_count};

// What is asked for with word i too, None for an unknown word. Details and many traces are what this program always shows and reads.
fn with_word(rt: &impl Env, asked: Asked, i: usize) -> Option<Asked> {
    let mut word = [0u8; 16];
    let n = arg(rt, i, &mut word);
    match &word[..n] {
        b"--details" | b"--batch" => Some(asked),
        b"--events" => Some(Asked {
            events: true,
            ..asked
        }),
        b"--digest" => Some(Asked {
            digest: true,
            ..asked
        }),
        _ => None,
    }
}

// None where a word is unknown.
pub fn asked(rt: &impl Env) -> Option<Asked> {
    let mut asked = Asked {
        events: false,
        digest: false,
    };
    for i in 1..arg_count(rt) {
        asked = with_word(rt, asked, i)?;
    }
    Some(asked)
}
