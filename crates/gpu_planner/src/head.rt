// The four words in front of the decisions of a run.

ghost use Rattle.std.specs.Prelude.{◌≡◌, ◌≤◌, length};
ghost use Rattle.decision_log.specs.Words.{over};
ghost use Rattle.gpu_planner.specs.Head.{head_words, refused_head};

use trace::answer::{Refusal, number_of, place_of};

// answer 0: planned to its end; 1 to 9: the load was refused, at the place; 12: a step was refused.
#[derive(Clone, Copy)]
pub struct Head {
    pub answer: u64,
    pub place: u64,
    pub steps: u64,
    pub decisions: u64,
}

// Of a refused load.
pub fn refused(answer: Result<(), Refusal>) -> Head
    ensures { result ≡ refused_head answer }
{
    Head {
        answer: number_of(answer),
        place: place_of(answer) as u64,
        steps: 0,
        decisions: 0,
    }
}

pub fn put_head(words: &mut [u64], head: Head)
    requires { 4 ≤ length words.old }
    ensures { words.new ≡ over (head_words head) words.old }
{
    words[0] = head.answer;
    words[1] = head.place;
    words[2] = head.steps;
    words[3] = head.decisions;
}
