// The records: one reader a record, over the bytes from the record's kind on.

ghost use Rattle.std.specs.Prelude.{◌≡◌, ◌≤◌, ◌<◌, ◌^◌};
ghost use Rattle.std.specs.Float.{binary64};
ghost use Rattle.std.specs.Float.Ieee.{of_bits};
ghost use Rattle.model.specs.Sizes.{permitted_bits};
ghost use Rattle.trace.specs.Record.{priority_of, least_slices, most_slices, kind_read, fields_read, record_read};
ghost use Rattle.trace.specs.Record.{node_read, gpu_read, quota_read, profile_read, job_read, options_read};

use crate::answer::{Fault, Refusal};
use crate::field::Fields;
use crate::ranges::{
    COUNT, FLAG, GANG_NODES, GROUP, LAST_KIND, LEAST_MULTIPLIER, MOST, MULTIPLIER, PRIORITY,
    PROFILE, PROFILE_ASKED, QUOTA, SITE, SLICES_ASKED, TENANT, TENANT_ASKED, TYPE, TYPE_ASKED,
};
use model::job::Ask;
use model::setting::Options;
use model::sizes::PERMITTED;

// What a GPU record says; the GPU stands on the latest node.
#[derive(Clone, Copy)]
pub struct Card {
    pub kind: u8,
    pub memory: f64,
    pub group: u16,
    pub mig: bool,
}

#[derive(Clone, Copy)]
pub enum Record {
    End,
    Node(u8),
    Gpu(Card),
    Quota(u8, u32),
    Profile(u8, u8),
    Job(Ask),
    Options(Options),
}

// A record, and the bytes that it takes.
#[derive(Clone, Copy)]
pub struct Read {
    pub found: Record,
    pub used: usize,
}

#[tactic(auto, using(crate::specs::RecordLaws::no_nan))]
fn float_of(bits: u64) -> f64
    requires { bits ≤ permitted_bits }
    ensures { result ≡ of_bits binary64 bits }
{
    f64::from_bits(bits)
}

// A priority p is stored as 2p, or as -2p-1 when negative, and kept as p + 2^31.
fn priority_of(stored: u64) -> u32
    requires { stored < 2 ^ 32 }
    ensures { result ≡ priority_of stored }
{
    if stored % 2 == 0 {
        (0x8000_0000 + stored / 2) as u32
    } else {
        (0x7fff_ffff - stored / 2) as u32
    }
}

// Slices are 0 without a profile, 1 to 64 with one.
fn least_slices(profile: u64) -> u64
    ensures { result ≡ least_slices profile }
{
    if profile == 0 { 0 } else { 1 }
}

fn most_slices(profile: u64) -> u64
    ensures { result ≡ most_slices profile }
{
    if profile == 0 { 0 } else { SLICES_ASKED }
}

#[tactic(auto, unfolding(crate::specs::Record::node_read))]
pub fn read_node(s: &[u8]) -> Result<Read, Refusal>
    ensures { result ≡ node_read s.now }
{
    let mut fields = Fields { bytes: s, at: 1 };
    let site = fields.next(0, SITE)?;
    Ok(Read {
        found: Record::Node(site as u8),
        used: fields.at,
    })
}

#[tactic(auto, unfolding(crate::specs::Record::gpu_read))]
pub fn read_gpu(s: &[u8]) -> Result<Read, Refusal>
    ensures { result ≡ gpu_read s.now }
{
    let mut fields = Fields { bytes: s, at: 1 };
    let kind = fields.next(0, TYPE)?;
    let memory = fields.next(0, PERMITTED)?;
    let group = fields.next(0, GROUP)?;
    let mig = fields.next(0, FLAG)?;
    let card = Card {
        kind: kind as u8,
        memory: float_of(memory),
        group: group as u16,
        mig: mig == 1,
    };
    Ok(Read {
        found: Record::Gpu(card),
        used: fields.at,
    })
}

#[tactic(auto, unfolding(crate::specs::Record::quota_read))]
pub fn read_quota(s: &[u8]) -> Result<Read, Refusal>
    ensures { result ≡ quota_read s.now }
{
    let mut fields = Fields { bytes: s, at: 1 };
    let tenant = fields.next(0, TENANT)?;
    let quota = fields.next(0, QUOTA)?;
    Ok(Read {
        found: Record::Quota(tenant as u8, quota as u32),
        used: fields.at,
    })
}

#[tactic(auto, unfolding(crate::specs::Record::profile_read))]
pub fn read_profile(s: &[u8]) -> Result<Read, Refusal>
    ensures { result ≡ profile_read s.now }
{
    let mut fields = Fields { bytes: s, at: 1 };
    let profile = fields.next(0, PROFILE)?;
    let most = fields.next(1, MOST)?;
    Ok(Read {
        found: Record::Profile(profile as u8, most as u8),
        used: fields.at,
    })
}

#[tactic(auto, unfolding(crate::specs::Record::job_read))]
pub fn read_job(s: &[u8]) -> Result<Read, Refusal>
    ensures { result ≡ job_read s.now }
{
    let mut fields = Fields { bytes: s, at: 1 };
    let arrival = fields.next(0, PERMITTED)?;
    let duration = fields.next(0, PERMITTED)?;
    let priority = fields.next(0, PRIORITY)?;
    let count = fields.next(0, COUNT)?;
    let memory = fields.next(0, PERMITTED)?;
    let kind = fields.next(0, TYPE_ASKED)?;
    let site = fields.next(0, SITE)?;
    let tenant = fields.next(0, TENANT_ASKED)?;
    let gang = fields.next(0, FLAG)?;
    let nodes = fields.next(0, GANG_NODES)?;
    let network = fields.next(0, FLAG)?;
    let timeout = fields.next(0, PERMITTED)?;
    let profile = fields.next(0, PROFILE_ASKED)?;
    let slices = fields.next(least_slices(profile), most_slices(profile))?;
    let ask = Ask {
        arrival: float_of(arrival),
        duration: float_of(duration),
        priority: priority_of(priority),
        count: count as u8,
        memory: float_of(memory),
        kind: kind as u16,
        site: site as u8,
        tenant: tenant as u8,
        gang: gang == 1,
        nodes: nodes as u8,
        network: network == 1,
        timeout: float_of(timeout),
        profile: profile as u8,
        slices: slices as u8,
    };
    Ok(Read {
        found: Record::Job(ask),
        used: fields.at,
    })
}

#[tactic(auto, unfolding(crate::specs::Record::options_read))]
pub fn read_options(s: &[u8]) -> Result<Read, Refusal>
    ensures { result ≡ options_read s.now }
{
    let mut fields = Fields { bytes: s, at: 1 };
    let seconds = fields.next(0, PERMITTED)?;
    let penalty = fields.next(0, PERMITTED)?;
    let multiplier = fields.next(LEAST_MULTIPLIER, MULTIPLIER)?;
    let best = fields.next(0, FLAG)?;
    let aware = fields.next(0, FLAG)?;
    let options = Options {
        seconds: float_of(seconds),
        penalty: float_of(penalty),
        multiplier: float_of(multiplier),
        best: best == 1,
        aware: aware == 1,
    };
    Ok(Read {
        found: Record::Options(options),
        used: fields.at,
    })
}

// The record's kind: a number like any other, refused as a kind where no record has it.
#[tactic(auto, unfolding(crate::specs::Record::kind_read))]
fn read_kind(s: &[u8]) -> Result<u64, Refusal>
    ensures { result ≡ kind_read s.now }
{
    let mut fields = Fields { bytes: s, at: 0 };
    let kind = fields.next(0, u64::MAX)?;
    if kind <= LAST_KIND {
        Ok(kind)
    } else {
        Err(Refusal {
            fault: Fault::UnknownKind,
            at: 0,
        })
    }
}

// The record at the front of the bytes at hand.
#[tactic(auto, unfolding(crate::specs::Record::record_read))]
pub fn read_record(s: &[u8]) -> Result<Read, Refusal>
    ensures { result ≡ record_read s.now }
{
    let kind = read_kind(s)?;
    read_fields(s, kind)
}

// The record of a kind, by the reader of that kind.
#[tactic(auto, unfolding(crate::specs::Record::fields_read))]
fn read_fields(s: &[u8], kind: u64) -> Result<Read, Refusal>
    ensures { result ≡ fields_read s.now kind }
{
    match kind {
        1 => read_node(s),
        2 => read_gpu(s),
        3 => read_quota(s),
        4 => read_profile(s),
        5 => read_job(s),
        6 => read_options(s),
        _ => Ok(Read {
            found: Record::End,
            used: 1,
        }),
    }
}
