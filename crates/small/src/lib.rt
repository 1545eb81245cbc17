// Small rules on numbers.

#![tactic(auto)]

ghost use Rattle.std.specs.Prelude.{◌≡◌};
ghost use Rattle.small.specs.Small.{plus_one, onward};

// A number as it is kept where 0 stands for none: an owner is its job's number plus 1.
pub fn plus_one(x: u16) -> u16
    ensures { result ≡ plus_one x }
{
    x.checked_add(1).unwrap_or(0)
}

// The count of a table's entries after one more; a full table takes none.
pub fn onward(n: usize, size: usize) -> usize
    ensures { result ≡ onward n size }
{
    if n < size { n + 1 } else { n }
}
