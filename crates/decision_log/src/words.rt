// The words of the decisions, written into lent words.

ghost use Rattle.std.specs.Prelude.{◌≡◌, ◌≤◌, length, take};
ghost use Rattle.decision_log.specs.Log.{words};
ghost use Rattle.decision_log.specs.Words.{put_words, over};

use crate::{DECISIONS, Decision, kind_word};
use tables::write;

// A decision's four words from a place on.
fn put_words(out: &mut [u64], at: usize, d: Decision)
    requires { at ≤ 512 }
    ensures { out.new ≡ put_words out.old at d }
{
    write(out, at, d.time);
    write(out, at + 1, kind_word(d.kind));
    write(out, at + 2, u64::from(d.job));
    write(out, at + 3, u64::from(d.other));
}

// The first count decisions in front; the other words stay as they were.
pub fn write_words(out: &mut [u64], table: [Decision; DECISIONS], count: usize)
    requires { 516 ≤ length out.old }
    ensures { out.new ≡ over (words (take count table)) out.old }
{
    for (i, d) in table[..count.min(DECISIONS)].iter().enumerate() {
        put_words(out, 4 * i, *d);
    }
}
