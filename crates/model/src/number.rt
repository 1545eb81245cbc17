// Permitted numbers: an f64 tested by its bits.

ghost use Rattle.std.specs.Prelude.{◌≡◌};
ghost use Rattle.model.specs.Number.{permitted, bits_of};

use crate::sizes::PERMITTED;

// The bits of x, by which permitted numbers are ordered. A NaN has several patterns; each counts as the one written here.
pub fn bits_of(x: f64) -> u64
    ensures { result ≡ bits_of x }
{
    if x == x {
        x.to_bits()
    } else {
        0x7ff8_0000_0000_0000
    }
}

pub fn is_permitted(x: f64) -> bool
    ensures { result ≡ permitted x }
{
    bits_of(x) <= PERMITTED
}
