// A trace loaded, and run.

ghost use Rattle.std.specs.Prelude.{◌≡◌, ◌≤◌, length};
ghost use Rattle.gpu_planner.specs.Ran.{ran};

use crate::head::{Head, refused};
use crate::run::run;
use loader::load::{fill, load_tables};
use loader::loading::empty_tables;
use model::plan::empty_plan;

// A plan is made of a whole load alone. The arrivals stand in front of its room, one for each job.
pub fn load_and_run(trace: &[u8], words: &mut [u64]) -> Head
    requires { 4 ≤ length words.old }
    ensures value { result ≡ (ran trace.now words.old).head }
    ensures words_after { words.new ≡ (ran trace.now words.old).words }
{
    let mut tables = empty_tables();
    match load_tables(trace, &mut tables) {
        Ok(()) => {
            let mut plan = empty_plan();
            fill(&mut plan, &tables);
            let jobs = usize::from(tables.setting.jobs);
            run(&mut plan, jobs, words)
        }
        Err(refusal) => refused(Err(refusal)),
    }
}
