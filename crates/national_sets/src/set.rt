// A national set as its six numbers, and whether it may stand behind others.
ghost use Rattle.std.specs.Prelude.{◌≡◌, ◌+◌, ◌≤◌, ◌&&◌, leb, length};
ghost use Rattle.figures.specs.National.{figures_sound};
ghost use Rattle.figures.specs.Ranges.{within};
ghost use Rattle.figures.specs.Store.{set_from, set_sound};

use figures::{National, NationalSet};

// The numbers of a set.
pub const SET_NUMBERS: usize = 6;

// The set whose six numbers begin at a place: by indexes, as the definition has them.
pub fn set_from(numbers: &[u32], at: usize) -> NationalSet
    requires { at + 6 ≤ length numbers.now }
    ensures { result ≡ set_from numbers.now at }
{
    NationalSet {
        day: numbers[at],
        figures: National {
            arch: numbers[at + 1],
            low: numbers[at + 2],
            high: numbers[at + 3],
            short: numbers[at + 4],
            long: numbers[at + 5],
        },
    }
}

// Whether a number lies in a range. Like those below, the tests of a set are joined without branches, for the speed of a store of many sets.
fn within(low: u32, high: u32, x: u32) -> bool
    ensures { result ≡ within low high x }
{
    (low <= x) & (x <= high)
}

// Whether the upper value of μ3 and the range of μw are sound, in hundredths.
fn coefficients_sound(n: National) -> bool
    ensures { result ≡ (within 1 800 n.arch && within 1 800 n.low && within 1 800 n.high && leb n.low n.high) }
{
    within(1, 800, n.arch) & within(1, 800, n.low) & within(1, 800, n.high) & (n.low <= n.high)
}

// Whether a set's coefficients are sound, and its range of drift lengths.
fn figures_sound(n: National) -> bool
    ensures { result ≡ figures_sound n }
{
    coefficients_sound(n)
        & within(1_000, 30_000, n.short)
        & within(1_000, 30_000, n.long)
        & (n.short <= n.long)
}

// Whether a set may stand behind others, where earliest is the first day that it may have.
#[tactic(auto, unfolding(figures::specs::Store::set_sound))]
pub fn set_sound(set: NationalSet, earliest: u64) -> bool
    ensures { result ≡ set_sound earliest set }
{
    (earliest..=65_535).contains(&u64::from(set.day)) & figures_sound(set.figures)
}
