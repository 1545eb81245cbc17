// A number of the trace: groups of seven bits, low group first, in its shortest form.

ghost use Rattle.std.specs.Prelude.{◌≡◌, ◌<◌, ◌^◌, drop};
ghost use Rattle.trace.specs.Number.{number, tenth, carried};

// Why the bytes at hand give no number.
#[derive(Clone, Copy, PartialEq, Eq)]
pub enum NumberFault {
    Ends,
    Padded,
    Oversized,
}

// The tenth byte, above nine groups that sum to low.
#[tactic(auto, using(crate::specs::NumberSteps::tenth_steps))]
fn tenth_byte(s: &[u8], low: u64) -> Result<(u64, usize), NumberFault>
    requires { low < 2 ^ 63 }
    ensures { result ≡ carried low (2 ^ 63) 9 (tenth (drop 9 s.now)) }
{
    match s.get(9) {
        None => Err(NumberFault::Ends),
        Some(0) => Err(NumberFault::Padded),
        Some(1) => Ok((low + 0x8000_0000_0000_0000, 10)),
        Some(_) => Err(NumberFault::Oversized),
    }
}

// The number at the front of the bytes, with the bytes that it takes.
pub fn read_number(s: &[u8]) -> Result<(u64, usize), NumberFault>
    ensures { result ≡ number s.now }
{
    let mut sum: u64 = 0;
    let mut unit: u64 = 1;
    let mut least: u64 = 0;
    for i in 0..9 {
        if s.len() <= i {
            return Err(NumberFault::Ends);
        }
        let b = s[i] as u64;
        if b < least {
            return Err(NumberFault::Padded);
        }
        if b < 128 {
            return Ok((sum + unit * b, i + 1));
        }
        sum += unit * (b - 128);
        unit *= 128;
        least = 1;
    }
    tenth_byte(s, sum)
}
