// Stores with one number altered, and of other lengths: which of them every call refuses by 18, and what the others answer.
use crate::calls::{CODE, all_refuse, bare_site, load, lower_roof, site_on};
use crate::rule::{altered, numbers_for};
use counts::Verdicts;
use second::{LoadCase, TENTHS};
use second_sets::{STORE_NUMBERS, figures_on};

// The last day.
const DAY: Option<u16> = Some(u16::MAX);

// The load at the wall that a job of the last day has in an accepted store, or 19.
fn expected(store: &[u32]) -> Result<u32, u8> {
    let national = figures_on(store, DAY).ok_or(19)?;
    let roof = lower_roof();
    let case = LoadCase::new(national, site_on(DAY), &roof, CODE);
    Ok(case.load_read(0, TENTHS))
}

// One store: 18 comes before a site's 6.
fn compare_store(count: &mut Verdicts, store: &[u32]) {
    let (site, bare) = (site_on(DAY), bare_site(DAY));
    if second_sets::refused(store) {
        let refused = all_refuse(store, site, 18) && all_refuse(store, bare, 18);
        count.refused.compare(!refused);
    } else {
        let refused = all_refuse(store, bare, 6);
        let other = load(store, site) != expected(store);
        count.accepted.compare(!refused || other);
    }
}

// Stores without a set, of 0, 1, 192, 193 and 194 numbers; then those of 2 and of 32 sets, with every place altered to every number for it.
pub fn every_store() -> Verdicts {
    let mut count = Verdicts::default();
    for length in [0, 1, 192, 193, 194] {
        compare_store(&mut count, &[0; 194][..length]);
    }
    for sets in [2, 32] {
        for place in 0..STORE_NUMBERS {
            for number in numbers_for(sets, place) {
                compare_store(&mut count, &altered(sets, place, number));
            }
        }
    }
    count
}
