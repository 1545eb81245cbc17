// The sizes of document 01, each named once.

pub const NODES: usize = 32;

pub const GPUS: usize = 128;

pub const SLICES: usize = 7;

pub const JOBS: usize = 128;

pub const TENANTS: usize = 32;

pub const PROFILES: usize = 16;

pub const EVENTS: usize = 1152;

pub const TRACE_BYTES: usize = 65536;

// The bits of the largest permitted number, 2^40.
pub const PERMITTED: u64 = 0x4270_0000_0000_0000;
