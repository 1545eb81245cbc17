// The fields of a record: each a number, read and then ranged, behind the one before it.

ghost use Rattle.std.specs.Prelude.{◌≡◌, ◌≤◌, MatchResult, IfOk, Err, Ok, drop};
ghost use Rattle.trace.specs.Field.{field, got};

use crate::answer::{Fault, Refusal};
use crate::number::{NumberFault, read_number};

// The bytes from a place on: none past the last.
#[tactic(auto, using(laws::specs::Tables::rest, crate::specs::FieldLaws::drop_past))]
fn bytes_from(s: &[u8], at: usize) -> &[u8]
    ensures { result.now ≡ drop at s.now }
{
    s.get(at..).unwrap_or(&[])
}

// A record's bytes, and the place of its next field.
#[derive(Drop)]
pub struct Fields<'a> {
    pub bytes: &'a [u8],
    pub at: usize,
}

impl Fields<'_> {
    // The next field, from least to most.
    #[tactic(auto, unfolding(crate::specs::Field::field))]
    pub fn next(&mut self, least: u64, most: u64) -> Result<u64, Refusal>
        ensures reads { MatchResult result
            (λ v. field self.old.bytes.now self.old.at least most ≡ Ok (got v self.new.at))
            (λ e. field self.old.bytes.now self.old.at least most ≡ Err e) }
        ensures ranged { IfOk result (λ v. v ≤ most) }
        ensures same { self.new.bytes ≡ self.old.bytes }
    {
        let at = self.at;
        match read_number(bytes_from(self.bytes, at)) {
            Ok((value, used)) if least <= value && value <= most => {
                self.at += used;
                Ok(value)
            }
            Ok(_) => Err(Refusal {
                fault: Fault::OutOfRange,
                at,
            }),
            Err(NumberFault::Ends) => Err(Refusal {
                fault: Fault::EndsEarly,
                at: self.bytes.len(),
            }),
            Err(_) => Err(Refusal {
                fault: Fault::BadNumber,
                at,
            }),
        }
    }
}
