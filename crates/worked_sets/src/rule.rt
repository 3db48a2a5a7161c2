// Stores by a rule, and the numbers that stand in the place of one of theirs.
ghost use Rattle.std.specs.Prelude.{◌<◌};

use second_sets::STORE_NUMBERS;
use std::array;

// What stands behind the last set.
const BEHIND: u32 = u32::MAX;

// How many numbers a place is tried with.
pub const TRIED: usize = 21;

// Set i, from 0: it begins 700 days after the one before, and all of its figures are others. There are 33, and then the first again.
pub fn set_of(i: usize) -> [u32; 6] {
    let i = (i % 33) as u32;
    [
        100 + 700 * i,
        100 + 20 * i,
        1 + 10 * i,
        400 + 12 * i,
        1_000 + 200 * i,
        8_000 + 650 * i,
    ]
}

// The number at a place of the store with so many sets.
fn store_number(sets: u32, place: usize) -> u32 {
    if place == 0 {
        return sets;
    }
    let (set, field) = ((place - 1) / 6, (place - 1) % 6);
    if set < sets as usize {
        set_of(set)[field]
    } else {
        BEHIND
    }
}

pub fn store_of(sets: u32) -> [u32; STORE_NUMBERS] {
    array::from_fn(|place| store_number(sets, place))
}

// The store with another number at a place.
pub fn altered(sets: u32, place: usize, number: u32) -> [u32; STORE_NUMBERS]
    requires { place < 193 }
{
    let mut store = store_of(sets);
    store[place] = number;
    store
}

// The numbers for a place of the store with so many sets: the ends of every range and beside them, at or beside the same number of the
// set before and of the set behind, at or beside the number behind it, and beside its own.
pub fn numbers_for(sets: u32, place: usize) -> [u32; TRIED]
    requires { place < 200 }
{
    let before = store_number(sets, place.saturating_sub(6));
    let behind = store_number(sets, place + 6);
    let next = store_number(sets, place + 1);
    let own = store_number(sets, place);
    [
        0,
        1,
        32,
        33,
        800,
        801,
        999,
        1_000,
        30_000,
        30_001,
        65_535,
        65_536,
        u32::MAX,
        before,
        before.saturating_add(1),
        behind,
        behind.saturating_sub(1),
        next,
        next.saturating_add(1),
        own.saturating_sub(1),
        own.saturating_add(1),
    ]
}
