// The second calculation's reading of a lent store of national sets, from the words of A8 alone: 193 numbers, the count, then six a
// set.
#![tactic(auto)]

use figures::National;
use std::iter::Take;
use std::slice::Iter;

// A store's numbers and most sets, once more: nothing of the library's own plays a part in this reading.
pub const STORE_NUMBERS: usize = 193;

const MOST_SETS: u32 = 32;

// A set's numbers: its first day, upper value of μ3, μw twice and drift length twice.
type Set = [u32; 6];

// The sets that a store says that it has, as far as it reaches.
fn sets(store: &[u32]) -> Take<Iter<'_, Set>> {
    let (count, numbers) = store.split_first().unwrap_or((&0, &[]));
    let (sets, _) = numbers.as_chunks::<6>();
    sets.iter().take(*count as usize)
}

// "breaks a range".
fn breaks_range(set: &Set) -> bool {
    !matches!(
        set,
        [
            0..=65_535,
            1..=800,
            1..=800,
            1..=800,
            1_000..=30_000,
            1_000..=30_000
        ]
    )
}

// "puts a low above its high".
fn low_above_high(set: &Set) -> bool {
    let [_, _, low, high, short, long] = set;
    high < low || long < short
}

// Whether 18 refuses numbers as a store: a set "breaks a range", "puts a low above its high" or "isn't later" than the one before.
pub fn refused(store: &[u32]) -> bool {
    store.len() != STORE_NUMBERS
        || MOST_SETS < store[0]
        || sets(store).any(|set| breaks_range(set) || low_above_high(set))
        || !sets(store).is_sorted_by(|[before, ..], [day, ..]| before < day)
}

fn figures_of(set: &Set) -> National {
    let [_, arch, low, high, short, long] = *set;
    National {
        arch,
        low,
        high,
        short,
        long,
    }
}

// The national figures that a job uses in an accepted store: those of the last set that has begun on its day, where first days rise; none
// where 19 refuses the job. Without a day they are the recommended ones: 2.0, 0.8 to 4, 5 m to 15 m.
pub fn figures_on(store: &[u32], day: Option<u16>) -> Option<National> {
    let Some(day) = day else {
        return Some(National {
            arch: 200,
            low: 80,
            high: 400,
            short: 5_000,
            long: 15_000,
        });
    };
    sets(store)
        .take_while(|[first, ..]| *first <= u32::from(day))
        .last()
        .map(figures_of)
}

// Puts six numbers behind the last set of a store: none where they aren't six or find no room.
pub fn put_set(store: &mut [u32; STORE_NUMBERS], set: &[u32]) -> Option<()> {
    let count = store[0];
    let (places, _) = store[1..].as_chunks_mut::<6>();
    *places.get_mut(count as usize)? = Set::try_from(set).ok()?;
    store[0] = count + 1;
    Some(())
}

// A store with one more set behind the last, by its numbers; none where 18 refuses the numbers as a set for the store: they aren't six,
// or the store is refused, without them or with them.
pub fn with_set(store: &[u32], set: &[u32]) -> Option<[u32; STORE_NUMBERS]> {
    if refused(store) {
        return None;
    }
    let mut with = <[u32; STORE_NUMBERS]>::try_from(store).ok()?;
    put_set(&mut with, set)?;
    if refused(&with) { None } else { Some(with) }
}
