// An accepted store of national sets.
ghost use Rattle.std.specs.Prelude.{◌≡◌, ◌+◌, ◌≤◌, ◌<◌, ◌&&◌, ltb, length, IfOk};
ghost use Rattle.figures.specs.Refusal.{number_in};
ghost use Rattle.figures.specs.Store.{set_count, set_start, set_at, earliest_day, set_sound, sets_sound, store_fits, store_refusal};

use crate::set::{SET_NUMBERS, set_from, set_sound};
use figures::{NationalSet, Refusal};

// The numbers of a store, and the sets that it has room for.
pub const STORE_NUMBERS: usize = 193;

pub const MOST_SETS: usize = 32;

// A store that no rule refuses, in the numbers that a caller lends.
#[derive(Clone, Copy)]
pub struct Store<'a> {
    numbers: &'a [u32],
    ghost accepted: { store_refusal numbers.now ≡ 0 },
}

impl<'a> Store<'a> {
    // Any numbers as a store, or 18.
    #[tactic(auto, unfolding(figures::specs::Store::store_refusal))]
    pub fn read(numbers: &'a [u32]) -> Result<Store<'a>, Refusal>
        ensures refusal { number_in result ≡ store_refusal numbers.now }
        ensures lent { IfOk result (λ store. store.numbers.now ≡ numbers.now) }
    {
        if !store_sound(numbers) {
            return Err(Refusal::Store);
        }
        Ok(Store { numbers })
    }

    // How many sets it holds.
    #[tactic(auto, using(figures::proofs::Stores::store_kept))]
    pub fn count(self) -> usize
        ensures { (result ≡ set_count self.entry.numbers.now) × (result ≤ 32) }
    {
        self.numbers[0] as usize
    }

    // Set i, from 0.
    #[tactic(auto, using(figures::proofs::Stores::store_kept))]
    pub fn set(self, i: usize) -> NationalSet
        requires { i < set_count self.numbers.now }
        ensures { result ≡ set_at self.entry.numbers.now i }
    {
        set_at(self.numbers, i)
    }

    // Whether a set may be added behind its last.
    #[tactic(auto, using(figures::proofs::Stores::store_kept))]
    pub fn takes(self, set: NationalSet) -> bool
        ensures { result ≡ (ltb (set_count self.entry.numbers.now) 32 && set_sound (earliest_day (set_at self.entry.numbers.now) (set_count self.entry.numbers.now)) set) }
    {
        let count = self.count();
        count < MOST_SETS && set_sound(set, earliest_day(self.numbers, count))
    }
}

// Set i of a store, or of any numbers that have it.
pub fn set_at(numbers: &[u32], i: usize) -> NationalSet
    requires { set_start i + 6 ≤ length numbers.now }
    ensures { result ≡ set_at numbers.now i }
{
    set_from(numbers, 1 + SET_NUMBERS * i)
}

// The first day that a set behind the first i may have: the one after the last of their first days.
fn earliest_day(numbers: &[u32], i: usize) -> u64
    requires { set_start i ≤ length numbers.now }
    ensures { result ≡ earliest_day (set_at numbers.now) i }
{
    if i == 0 {
        return 0;
    }
    u64::from(set_at(numbers, i - 1).day) + 1
}

// Whether each of the first count sets may stand where it does. The first day that the next may have is carried on, and no test ends the
// loop or is passed over: a chain that stops at the first that fails takes a quarter longer with 31 sets.
fn sets_sound(numbers: &[u32], count: usize) -> bool
    requires { set_start count ≤ length numbers.now }
    ensures { result ≡ sets_sound (set_at numbers.now) count }
{
    let mut sound = true;
    let mut earliest = 0;
    for i in 0..count {
        let set = set_at(numbers, i);
        sound = sound & set_sound(set, earliest);
        earliest = u64::from(set.day) + 1;
    }
    sound
}

// Whether any numbers are a store that breaks no rule.
fn store_sound(numbers: &[u32]) -> bool
    ensures { result ≡ (store_fits (length numbers.now) (set_count numbers.now) && sets_sound (set_at numbers.now) (set_count numbers.now)) }
{
    if numbers.len() != STORE_NUMBERS {
        return false;
    }
    let count = numbers[0] as usize;
    count <= MOST_SETS && sets_sound(numbers, count)
}
