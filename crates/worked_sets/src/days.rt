// The national figures that a job uses on every day.
use crate::rule::store_of;
use counts::Compared;
use figures::{National, Refusal};
use national_sets::Store;
use second_sets::figures_on;
use sets_in_use::{check_day, figures_for};

// The figures that a job of a day uses in a store of any numbers.
fn figures_in_use(numbers: &[u32], day: Option<u16>) -> Result<National, Refusal> {
    let store = Store::read(numbers)?;
    check_day(store, day)?;
    Ok(figures_for(store, day))
}

// No day, and every day of 16 bits, in stores of 0, 1, 2, 31 and 32 sets.
pub fn sets_on_days() -> Compared {
    let mut count = Compared::default();
    for sets in [0, 1, 2, 31, 32] {
        let store = store_of(sets);
        let days = (0..=u16::MAX).map(Some);
        for day in [None].into_iter().chain(days) {
            let expected = figures_on(&store, day).ok_or(Refusal::NoSetBegun);
            count.compare(figures_in_use(&store, day) != expected);
        }
    }
    count
}
