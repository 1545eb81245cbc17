// Loading a trace: its records left to right, until the end record or the first refusal.

ghost use Rattle.std.specs.Prelude.{◌≡◌, ◌≤◌, length};
ghost use Rattle.model.specs.Plan.{empty_plan};
ghost use Rattle.loader.specs.Load.{plan_of, filled, turn_of, tables_of, follow, turn, turns, load_into, load};

use crate::arrivals::write_arrivals;
use crate::fault::fault_of;
use crate::loading::{Tables, empty_tables, put_record};
use model::plan::{Plan, empty_plan};
use model::sizes::TRACE_BYTES;
use trace::answer::{Fault, Refusal, further};
use trace::record::{Record, read_record};

// The answer beside the plan; refused, the plan is the empty one.
#[derive(Clone, Copy)]
pub struct Loaded {
    pub answer: Result<(), Refusal>,
    pub plan: Plan,
}

// A whole record that begins at a place and ends at another, in a trace of so many bytes: the place of the next, or none behind the end record.
#[tactic(auto, unfolding(crate::specs::Load::follow))]
fn follow(
    tables: &mut Tables,
    length: usize,
    at: usize,
    end: usize,
    r: Record,
) -> Result<Option<usize>, Refusal>
    ensures { turn_of result tables.new ≡ follow length at end r tables.old }
{
    match r {
        Record::End if end == length => Ok(None),
        Record::End => Err(Refusal {
            fault: Fault::AfterEnd,
            at: end,
        }),
        _ => {
            fault_of(tables, at, r)?;
            put_record(tables, r, at);
            Ok(Some(end))
        }
    }
}

// The record at a place: the place of the next.
#[tactic(auto, unfolding(crate::specs::Load::turn), using(crate::specs::LoadLaws::read_places))]
fn take_turn(trace: &[u8], at: usize, tables: &mut Tables) -> Result<Option<usize>, Refusal>
    requires { at ≤ length trace.now }
    ensures { turn_of result tables.new ≡ turn trace.now at tables.old }
{
    match read_record(&trace[at..]) {
        Ok(read) => follow(tables, trace.len(), at, at + read.used, read.found),
        Err(refusal) => Err(further(at, refusal)),
    }
}

// All records, until the end record or the first refusal.
fn take_turns(trace: &[u8], tables: &mut Tables) -> Result<(), Refusal>
    ensures { tables_of result tables.new ≡ turns (length trace.now) trace.now 0 tables.old }
{
    let mut at = 0;
    for _turn in 0..trace.len() {
        match take_turn(trace, at, tables)? {
            Some(next) => at = next,
            None => return Ok(()),
        }
    }
    Err(Refusal {
        fault: Fault::EndsEarly,
        at: trace.len(),
    })
}

// Loads a trace into tables, which hold nothing yet.
#[tactic(auto, unfolding(crate::specs::Load::load_into))]
pub fn load_tables(trace: &[u8], tables: &mut Tables) -> Result<(), Refusal>
    ensures { tables_of result tables.new ≡ load_into trace.now tables.old }
{
    if TRACE_BYTES < trace.len() {
        Err(Refusal {
            fault: Fault::TooLong,
            at: TRACE_BYTES,
        })
    } else {
        take_turns(trace, tables)
    }
}

// The tables over a plan, with the arrivals over its room.
#[tactic(auto, unfolding(crate::specs::Load::filled), using(crate::specs::FillLaws::filled_empty))]
pub fn fill(plan: &mut Plan, tables: &Tables)
    ensures plan_after { plan.new ≡ filled plan.old tables.now }
    ensures over_empty { plan.old ≡ empty_plan → plan.new ≡ plan_of tables.now }
{
    let jobs = usize::from(tables.setting.jobs);
    write_arrivals(&mut plan.events, &tables.jobs, jobs);
    plan.setting = tables.setting;
    plan.gpus = tables.gpus;
    plan.jobs = tables.jobs;
    plan.next = jobs as u64;
}

fn plan_of(tables: &Tables) -> Plan
    ensures { result ≡ plan_of tables.now }
{
    let mut plan = empty_plan();
    fill(&mut plan, tables);
    plan
}

// Loads a trace over a plan; refused, it leaves the empty plan.
#[tactic(auto, unfolding(crate::specs::Load::load, crate::specs::Load::loaded, crate::specs::Load::refused))]
pub fn load_plan(trace: &[u8], plan: &mut Plan) -> Result<(), Refusal>
    ensures answer { result ≡ (load trace.now).answer }
    ensures plan_after { plan.new ≡ (load trace.now).plan }
{
    *plan = empty_plan();
    let mut tables = empty_tables();
    load_tables(trace, &mut tables)?;
    *plan = plan_of(&tables);
    Ok(())
}

pub fn load(trace: &[u8]) -> Loaded
    ensures { result ≡ load trace.now }
{
    let mut plan = empty_plan();
    let answer = load_plan(trace, &mut plan);
    Loaded { answer, plan }
}
