// The planner as a library: a whole trace planned into lent words. `gpu_planner_c` exports it to C and Rust.

#![tactic(auto)]

pub mod head;
pub mod held;
pub mod lent;
mod load;
mod run;

ghost use Rattle.std.specs.Prelude.{◌≡◌};
ghost use Rattle.gpu_planner.specs.Ran.{ran_answer, ran_words};

use head::put_head;
use load::load_and_run;

// The head, four words for each of 9 decisions of 128 jobs, and the words that the last step asks for: it writes behind all the others.
pub const RUN_WORDS: usize = 5128;

// Plans a trace to its end and returns the answer: 10 where the words are too few, and then they all stay as they were.
// Else: word 0 the answer, word 1 the place of a refused load, word 2 the accepted steps, word 3 the decisions; from word 4 on
// the decisions, four words each as `step` writes them; every other word stays as it was.
pub fn planner_run(trace: &[u8], words: &mut [u64]) -> u64
    ensures value { result ≡ ran_answer trace.now words.old }
    ensures words_after { words.new ≡ ran_words trace.now words.old }
{
    if words.len() < RUN_WORDS {
        return 10;
    }
    let head = load_and_run(trace, words);
    put_head(words, head);
    head.answer
}
