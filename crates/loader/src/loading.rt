// The tables as they are loaded: a record is put after those before it.

ghost use Rattle.std.specs.Prelude.{◌≡◌, ◌<◌};
ghost use Rattle.model.specs.Sizes as Sizes;
ghost use Rattle.trace.specs.Answer.{Accepted};
ghost use Rattle.loader.specs.Fault.{fault_of};
ghost use Rattle.loader.specs.Tables.{empty_tables, put_node, put_limit, put_profile, put_card, put_ask, put_options, put_record, with_setting};

use model::gpu::Gpu;
use model::job::{Ask, Job, new_job};
use model::setting::{Options, Setting, empty_setting};
use model::sizes::{GPUS, JOBS};
use tables::{Entry, write};
use trace::record::{Card, Record};

// What is loaded so far; told says whether the trace has given options.
#[derive(Clone, Copy)]
pub struct Tables {
    pub setting: Setting,
    pub gpus: [Gpu; GPUS],
    pub jobs: [Job; JOBS],
    pub told: bool,
}

#[tactic(auto, unfolding(crate::specs::Tables::empty_tables))]
pub fn empty_tables() -> Tables
    ensures { result ≡ empty_tables }
{
    Tables {
        setting: empty_setting(),
        gpus: [Gpu::none(); GPUS],
        jobs: [Job::none(); JOBS],
        told: false,
    }
}

#[tactic(auto, unfolding(crate::specs::Tables::with_setting, crate::specs::Tables::put_node))]
fn put_node(t: &mut Tables, site: u8)
    requires { t.old.setting.nodes < Sizes.nodes }
    ensures { t.new ≡ with_setting t.old (put_node t.old.setting site) }
{
    write(&mut t.setting.sites, usize::from(t.setting.nodes), site);
    t.setting.nodes += 1;
}

// A quota is kept plus 1.
#[tactic(auto, unfolding(crate::specs::Tables::with_setting, crate::specs::Tables::put_limit))]
fn put_limit(t: &mut Tables, tenant: u8, quota: u32)
    ensures { t.new ≡ with_setting t.old (put_limit t.old.setting tenant quota) }
{
    write(
        &mut t.setting.quotas,
        usize::from(tenant),
        u64::from(quota) + 1,
    );
}

#[tactic(auto, unfolding(crate::specs::Tables::with_setting, crate::specs::Tables::put_profile))]
fn put_profile(t: &mut Tables, profile: u8, most: u8)
    ensures { t.new ≡ with_setting t.old (put_profile t.old.setting profile most) }
{
    write(&mut t.setting.mosts, usize::from(profile), most);
}

// A GPU as loaded, on the latest of the nodes, after those before it.
#[tactic(auto, unfolding(crate::specs::Tables::put_card, crate::specs::Tables::one_gpu))]
fn put_card(t: &mut Tables, card: Card)
    requires { (0 < t.old.setting.nodes) × (t.old.setting.gpus < Sizes.gpus) }
    ensures { t.new ≡ put_card t.old card }
{
    let gpu = Gpu {
        node: t.setting.nodes - 1,
        kind: card.kind,
        memory: card.memory,
        group: card.group,
        mig: card.mig,
        ..Gpu::none()
    };
    write(&mut t.gpus, usize::from(t.setting.gpus), gpu);
    t.setting.gpus += 1;
}

#[tactic(auto, unfolding(crate::specs::Tables::put_ask, crate::specs::Tables::one_job))]
fn put_ask(t: &mut Tables, ask: Ask)
    requires { t.old.setting.jobs < Sizes.jobs }
    ensures { t.new ≡ put_ask t.old ask }
{
    write(&mut t.jobs, usize::from(t.setting.jobs), new_job(ask));
    t.setting.jobs += 1;
}

#[tactic(auto, unfolding(crate::specs::Tables::put_options, crate::specs::Tables::with_options))]
fn put_options(t: &mut Tables, options: Options)
    ensures { t.new ≡ put_options t.old options }
{
    t.setting.options = options;
    t.told = true;
}

// A record without fault, put after those before it.
#[tactic(auto, using(crate::specs::FaultLaws::has_room, crate::specs::FaultLaws::has_node))]
pub fn put_record(t: &mut Tables, r: Record, at: usize)
    requires { fault_of t.old.setting t.old.told at r ≡ Accepted }
    ensures { t.new ≡ put_record t.old r }
{
    match r {
        Record::End => {}
        Record::Node(site) => put_node(t, site),
        Record::Gpu(card) => put_card(t, card),
        Record::Quota(tenant, quota) => put_limit(t, tenant, quota),
        Record::Profile(profile, most) => put_profile(t, profile, most),
        Record::Job(ask) => put_ask(t, ask),
        Record::Options(options) => put_options(t, options),
    }
}
