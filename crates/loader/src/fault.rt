// The faults of a whole record: 5, 6 and 7, told after its last field, at its kind.

ghost use Rattle.std.specs.Prelude.{◌≡◌};
ghost use Rattle.loader.specs.Fault.{room_for, once, on_node, fault_of};

use crate::loading::Tables;
use model::sizes::{GPUS, JOBS, NODES};
use tables::read;
use trace::answer::{Fault, Refusal};
use trace::record::Record;

// A table that holds count of at most size takes one more.
fn room_for(count: u8, size: usize, at: usize) -> Result<(), Refusal>
    ensures { result ≡ room_for count size at }
{
    if usize::from(count) < size {
        Ok(())
    } else {
        Err(Refusal {
            fault: Fault::TableFull,
            at,
        })
    }
}

fn once(told: bool, at: usize) -> Result<(), Refusal>
    ensures { result ≡ once told at }
{
    if told {
        Err(Refusal {
            fault: Fault::Repeated,
            at,
        })
    } else {
        Ok(())
    }
}

fn on_node(nodes: u8, gpus: u8, at: usize) -> Result<(), Refusal>
    ensures { result ≡ on_node nodes gpus at }
{
    if nodes == 0 {
        Err(Refusal {
            fault: Fault::GpuBeforeNode,
            at,
        })
    } else {
        room_for(gpus, GPUS, at)
    }
}

pub fn fault_of(t: &Tables, at: usize, r: Record) -> Result<(), Refusal>
    ensures { result ≡ fault_of t.now.setting t.now.told at r }
{
    match r {
        Record::End => Ok(()),
        Record::Node(_) => room_for(t.setting.nodes, NODES, at),
        Record::Gpu(_) => on_node(t.setting.nodes, t.setting.gpus, at),
        Record::Quota(tenant, _) => { once(read(&t.setting.quotas, usize::from(tenant)) != 0, at) }
        Record::Profile(profile, _) => {
            once(read(&t.setting.mosts, usize::from(profile)) != 0, at)
        }
        Record::Job(_) => room_for(t.setting.jobs, JOBS, at),
        Record::Options(_) => once(t.told, at),
    }
}
