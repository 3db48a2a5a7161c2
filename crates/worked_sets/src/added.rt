// What adding a set answers and leaves.
use crate::calls::{load, site_on};
use crate::rule::{altered, numbers_for, set_of, store_of};
use counts::{Compared, Verdicts};
use second_sets::{STORE_NUMBERS, with_set};

// The new count, or the number of the refusal.
fn add(store: &mut [u32], set: &[u32]) -> Result<u32, u8> {
    added_sets::add_set(store, set).map_err(u8::from)
}

// A set for a store: where it is refused, the store is as it was.
fn compare_set(count: &mut Verdicts, before: [u32; STORE_NUMBERS], set: &[u32]) {
    let mut store = before;
    let answer = add(&mut store, set);
    match with_set(&before, set) {
        Some(with) => count
            .accepted
            .compare(answer != Ok(with[0]) || store != with),
        None => count.refused.compare(answer != Err(18) || store != before),
    }
}

// Sets for the store with two sets, of 0, 5, 6 and 7 numbers.
fn compare_lengths(count: &mut Verdicts) {
    let set = [2_000, 300, 50, 600, 2_000, 20_000, 1];
    for length in [0, 5, 6, 7] {
        compare_set(count, store_of(2), &set[..length]);
    }
}

// A set for every store that has one number of the first two sets altered, or its count.
fn compare_altered_stores(count: &mut Verdicts) {
    let set = set_of(2);
    for place in 0..13 {
        for number in numbers_for(2, place) {
            compare_set(count, altered(2, place, number), &set);
        }
    }
}

// A set with every number for every field, for the stores of every count.
fn compare_fields(count: &mut Verdicts) {
    for sets in 0..=32 {
        let store = store_of(sets);
        let set = set_of(sets as usize);
        for field in 0..6 {
            for number in numbers_for(sets + 1, 6 * sets as usize + 1 + field) {
                let mut altered_set = set;
                altered_set[field] = number;
                compare_set(count, store, &altered_set);
            }
        }
    }
}

// A set for a store of other than 193 numbers, of which there are up to 194: refused, and all are as they were.
fn compare_other_lengths(count: &mut Verdicts) {
    for length in [0, 192, 194] {
        let mut store = [0; 194];
        let answer = add(&mut store[..length], &set_of(0));
        count
            .refused
            .compare(answer != Err(18) || store != [0; 194]);
    }
}

// Sets one by one for a store that has room for 32: 33, the last of which is refused. A job of the day before a set and one without a
// day have the loads that they had.
fn compare_one_by_one(count: &mut Compared) {
    let mut store = store_of(0);
    for i in 0..33 {
        let set = set_of(i as usize);
        let sites = [site_on(eve_of(set[0])), site_on(None)];
        let before = sites.map(|site| load(&store, site));
        let answer = add(&mut store, &set);
        let changed = sites.map(|site| load(&store, site)) != before;
        let expected = if i < 32 { Ok(i + 1) } else { Err(18) };
        let left = store_of(32.min(i + 1));
        count.compare(changed || answer != expected || store != left);
    }
}

// The day before a set's first day.
fn eve_of(day: u32) -> Option<u16> {
    u16::try_from(day.saturating_sub(1)).ok()
}

pub fn sets_added() -> Verdicts {
    let mut count = Verdicts::default();
    compare_one_by_one(&mut count.accepted);
    compare_other_lengths(&mut count);
    compare_lengths(&mut count);
    compare_altered_stores(&mut count);
    compare_fields(&mut count);
    count
}
