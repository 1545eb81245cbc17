// The ranges of the records' fields, as document 01 gives them; a float's range is that of its bits, up to model's PERMITTED.

pub const LAST_KIND: u64 = 6;

pub const SITE: u64 = 64;

pub const TYPE: u64 = 255;

pub const TYPE_ASKED: u64 = 256;

pub const GROUP: u64 = 256;

pub const FLAG: u64 = 1;

pub const TENANT: u64 = 31;

pub const TENANT_ASKED: u64 = 32;

pub const QUOTA: u64 = 0xffff_ffff;

pub const PROFILE: u64 = 15;

pub const PROFILE_ASKED: u64 = 16;

pub const MOST: u64 = 7;

pub const PRIORITY: u64 = 0xffff_ffff;

pub const COUNT: u64 = 128;

pub const GANG_NODES: u64 = 32;

pub const SLICES_ASKED: u64 = 64;

pub const LEAST_MULTIPLIER: u64 = 0x3ff0_0000_0000_0000;

pub const MULTIPLIER: u64 = 0x4090_0000_0000_0000;
