// Lists of GPU numbers, at most 128, and what is asked of them.

ghost use Rattle.std.specs.Prelude.{◌≡◌, Bool, List, ℕ, ◌<◌, ◌^◌, [], ◌∷◌, ◌++◌, min, take};
ghost use Rattle.laws.specs.Lists.{pad};
ghost use Rattle.laws.specs.Search.{those};
ghost use Rattle.laws.specs.Sort.{only};
ghost use Rattle.eligible.specs.Chosen.{chosen, list_of, with_key, tally_of};

use model::sizes::GPUS;
use tables::read;

// How many keys are counted, 0 to 256: a node's number, or none and each group.
pub const KEYS: usize = 257;

// The numbers stand at the front of ids, count of them.
#[derive(Clone, Copy)]
pub struct Chosen {
    pub ids: [u16; GPUS],
    pub count: usize,
}

impl Chosen {
    // No number.
    pub fn new() -> Chosen
        ensures { result ≡ chosen [] }
    {
        Chosen {
            ids: no_ids(),
            count: 0,
        }
    }

    // Those that are held.
    pub fn numbers(&self) -> &[u16]
        ensures { result.now ≡ list_of self.now }
    {
        &self.ids[..self.count.min(GPUS)]
    }

    // x behind the others, if there is room.
    pub fn push(&mut self, x: u16)
        ensures { (l : List ℕ) → self.old ≡ chosen l → self.new ≡ chosen (take 128 (l ++ (x ∷ []))) }
    {
        if self.count < GPUS {
            self.ids[self.count] = x;
            self.count += 1;
        }
    }

    // These behind the others, as far as there is room.
    pub fn extend(&mut self, more: &[u16])
        ensures { (l : List ℕ) → self.old ≡ chosen l → self.new ≡ chosen (take 128 (l ++ more.now)) }
    {
        for x in more {
            self.push(*x);
        }
    }
}

// A table that holds no number yet.
pub fn no_ids() -> [u16; GPUS]
    ensures { result ≡ pad 128 0 [] }
{
    [0; GPUS]
}

// The numbers below n, at most 128, that pass the test.
pub fn those<F: Fn(usize) -> bool>(n: usize, test: F) -> Chosen
    requires { (i : ℕ) → i < 128 → F.pre test i }
    ensures { (p : ℕ → Bool) → ((i : ℕ) (b : Bool) → i < 128 → F.post test i b → b ≡ p i)
        → result ≡ chosen (those p (min n 128) 0) }
{
    let mut found = Chosen::new();
    for i in 0..n.min(GPUS) {
        if test(i) {
            found.push(i as u16);
        }
    }
    found
}

// Those of e that pass the test, in their order.
pub fn kept<F: Fn(u16) -> bool>(e: Chosen, test: F) -> Chosen
    requires { (x : ℕ) → x < 2 ^ 16 → F.pre test x }
    ensures { (p : ℕ → Bool) → ((x : ℕ) (b : Bool) → x < 2 ^ 16 → F.post test x b → b ≡ p x)
        → result ≡ chosen (only p (list_of e)) }
{
    let mut found = Chosen::new();
    for x in e.numbers() {
        if test(*x) {
            found.push(*x);
        }
    }
    found
}

// Those of e that have the key.
pub fn with_key(e: Chosen, keys: [u16; GPUS], key: u16) -> Chosen
    ensures { result ≡ chosen (with_key keys key (list_of e)) }
{
    kept(e, |x| read(&keys, usize::from(x)) == key)
}

// How many of e have each key; a key above 256 is counted nowhere.
pub fn tally(e: Chosen, keys: [u16; GPUS]) -> [u16; KEYS]
    ensures { result ≡ tally_of keys (list_of e) }
{
    let mut counts = [0; KEYS];
    for x in e.numbers() {
        let key = usize::from(read(&keys, usize::from(*x)));
        if key < KEYS {
            counts[key] += 1;
        }
    }
    counts
}

// The first of e, as many as asked or all.
pub fn first_of(e: Chosen, count: usize) -> Chosen
    ensures { result ≡ chosen (take count (list_of e)) }
{
    let numbers = e.numbers();
    let mut front = Chosen::new();
    front.extend(&numbers[..count.min(numbers.len())]);
    front
}

// a and behind it b, as far as there is room.
pub fn append(a: Chosen, b: Chosen) -> Chosen
    ensures { result ≡ chosen (take 128 (list_of a ++ list_of b)) }
{
    let mut both = first_of(a, GPUS);
    both.extend(b.numbers());
    both
}
