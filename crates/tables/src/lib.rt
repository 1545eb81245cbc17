// Tables that are lent: an entry is read at a number or put in place. Outside a table a read gives the entry for none, and a write
// changes nothing.

#![tactic(auto)]

ghost use Rattle.std.specs.Prelude.{◌≡◌, get_or, set};

// What a table holds; none stands in the places that nothing was put in.
pub trait Entry: Copy {
    ghost none: { Self };

    fn none() -> Self
        ensures { result ≡ none };
}

impl Entry for u8 {
    ghost none = { 0 };

    fn none() -> u8 {
        0
    }
}

impl Entry for u16 {
    ghost none = { 0 };

    fn none() -> u16 {
        0
    }
}

impl Entry for u64 {
    ghost none = { 0 };

    fn none() -> u64 {
        0
    }
}

pub fn read<T: Entry>(table: &[T], i: usize) -> T
    ensures { result ≡ get_or table.now i T.none }
{
    table.get(i).copied().unwrap_or(T::none())
}

pub fn write<T: Copy>(table: &mut [T], i: usize, x: T)
    ensures { table.new ≡ set table.old i x }
{
    if i < table.len() {
        table[i] = x;
    }
}

// A table that goes by value, with an entry put in.
pub fn put<T: Copy, const N: usize>(mut table: [T; N], i: usize, x: T) -> [T; N]
    ensures { result ≡ set table i x }
{
    write(&mut table, i, x);
    table
}

#[cfg(test)]
mod tests {
    use crate::{put, read, write};

    #[test]
    fn entries_are_read_and_written(rt: HostRuntime) {
        let mut bytes = [1u8, 2, 3];
        write(&mut bytes, 1, 9);
        write(&mut bytes, 3, 7);
        assert_eq!(rt; bytes, [1, 9, 3]);
        assert_eq!(rt; read(&bytes, 1), 9);
        assert_eq!(rt; read(&put([4u16, 5], 0, 6), 0), 6);
        assert_eq!(rt; read(&[8u64], 1), 0);
    }
}
