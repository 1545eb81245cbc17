// FNV-1a of 64 bits: a number that stands for a text too long to keep.

// The digest of no bytes.
pub const START: u64 = 0xcbf2_9ce4_8422_2325;

const PRIME: u64 = 0x0000_0100_0000_01b3;

// The digest after these bytes, from the digest before them.
pub fn digest(before: u64, s: &[u8]) -> u64 {
    s.iter()
        .fold(before, |sum, b| (sum ^ u64::from(*b)).wrapping_mul(PRIME))
}
