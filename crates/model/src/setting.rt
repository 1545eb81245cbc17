// What the trace says of the house: nodes, quotas, profiles, options, and how many of each record were loaded.

ghost use Rattle.std.specs.Prelude.{◌≡◌};
ghost use Rattle.model.specs.Setting.{default_options, empty_setting};

use crate::sizes::{NODES, PROFILES, TENANTS};

// seconds: what a reconfiguration adds to a start; penalty: what a restart adds; multiplier: what a penalised job's remaining is multiplied by.
#[repr(C)]
#[derive(Clone, Copy)]
pub struct Options {
    pub seconds: f64,
    pub penalty: f64,
    pub multiplier: f64,
    pub best: bool,
    pub aware: bool,
}

// A site, as a quota, is stored plus 1, or 0 for none; a profile's most is 0 where it is not loaded. nodes, gpus and jobs count those loaded.
#[repr(C)]
#[derive(Clone, Copy)]
pub struct Setting {
    pub sites: [u8; NODES],
    pub nodes: u8,
    pub gpus: u8,
    pub jobs: u8,
    pub quotas: [u64; TENANTS],
    pub mosts: [u8; PROFILES],
    pub options: Options,
}

// The options of a trace without an options record.
pub fn default_options() -> Options
    ensures { result ≡ default_options }
{
    Options {
        seconds: 30.0,
        penalty: 0.0,
        multiplier: 1.0,
        best: false,
        aware: true,
    }
}

pub fn empty_setting() -> Setting
    ensures { result ≡ empty_setting }
{
    Setting {
        sites: [0; NODES],
        nodes: 0,
        gpus: 0,
        jobs: 0,
        quotas: [0; TENANTS],
        mosts: [0; PROFILES],
        options: default_options(),
    }
}
