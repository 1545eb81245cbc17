// Writing into lent bytes at a place. Each function answers the place after what it wrote; past the end nothing is written.

ghost use Rattle.std.specs.Prelude.{◌≡◌, ◌+◌, min, length, set};
ghost use Rattle.io.specs.Counts.{IsPrefixLen};

pub fn put_byte(out: &mut [u8], at: usize, b: u8) -> usize
    ensures prefix_len { IsPrefixLen result out.new }
    ensures value { result ≡ min (at + 1) (length out.old) }
    ensures out_after { out.new ≡ set out.old at b }
{
    if at < out.len() {
        out[at] = b;
        at + 1
    } else {
        out.len()
    }
}

pub fn put_bytes(out: &mut [u8], at: usize, s: &[u8]) -> usize
    ensures { IsPrefixLen result out.new }
{
    // A place past the end counts as the end.
    let from = at.min(out.len());
    let n = s.len().min(out.len() - from);
    out[from..from + n].copy_from_slice(&s[..n]);
    from + n
}

pub fn put_space(out: &mut [u8], at: usize) -> usize
    ensures { IsPrefixLen result out.new }
{
    put_byte(out, at, b' ')
}

pub fn put_newline(out: &mut [u8], at: usize) -> usize
    ensures { IsPrefixLen result out.new }
{
    put_byte(out, at, b'\n')
}

pub fn put_decimal(out: &mut [u8], at: usize, n: u64) -> usize
    ensures { IsPrefixLen result out.new }
{
    let mut digits = [0u8; 20];
    let k = io::decimal(n, &mut digits);
    put_bytes(out, at, &digits[..k])
}

// All sixteen digits, in lower case.
pub fn put_hex(out: &mut [u8], at: usize, bits: u64) -> usize
    ensures { IsPrefixLen result out.new }
{
    let mut digits = [0u8; 16];
    let k = io::hex(bits, 16, &mut digits);
    put_bytes(out, at, &digits[..k])
}

// A dash for 0, else the number less 1: how none is stored, and shown.
pub fn put_maybe(out: &mut [u8], at: usize, n: u64) -> usize
    ensures { IsPrefixLen result out.new }
{
    match n.checked_sub(1) {
        Some(n) => put_decimal(out, at, n),
        None => put_byte(out, at, b'-'),
    }
}

// The answer of a load, by its number, 0 where it is accepted, and its place.
pub fn put_answer(out: &mut [u8], at: usize, number: u64, place: u64) -> usize
    ensures { IsPrefixLen result out.new }
{
    if number == 0 {
        return put_bytes(out, at, b"loaded");
    }
    let to = put_bytes(out, at, b"refused ");
    let to = put_decimal(out, to, number);
    let to = put_bytes(out, to, b" at ");
    put_decimal(out, to, place)
}
