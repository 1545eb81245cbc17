// Numbers before the text: a byte, and a word of four bytes, low byte first.

ghost use Rattle.std.specs.Prelude.{◌≡◌, ◌+◌, ◌*◌, ◌^◌, slice_index};

// The byte at a place; past the end each is 0.
pub fn byte_at(s: &[u8], at: usize) -> u8
    ensures { result ≡ slice_index s.now at }
{
    s.get(at).copied().unwrap_or(0)
}

// The word at the start of s.
pub fn first_word(s: &[u8]) -> u32
    ensures { result ≡ slice_index s.now 0 + 2 ^ 8 * slice_index s.now 1 + 2 ^ 16 * slice_index s.now 2 + 2 ^ 24 * slice_index s.now 3 }
{
    u32::from_le_bytes([byte_at(s, 0), byte_at(s, 1), byte_at(s, 2), byte_at(s, 3)])
}
