// The national set that a job uses, by its day, in an accepted store; and refusal 19.
#![tactic(auto)]

ghost use Rattle.std.specs.Prelude.{◌≡◌, Option};
ghost use Rattle.figures.specs.Bounds.{NationalIn};
ghost use Rattle.figures.specs.Refusal.{number_in};
ghost use Rattle.figures.specs.Store.{set_count, set_at, last_begun, set_in_use, day_refusal, figures_in_use};

use figures::{National, Refusal};
use national_sets::Store;

// The figures of the last set that has begun on a day, from the last set back as the definition counts: a chain would need a lemma that
// says the same.
#[tactic(auto, unfolding(figures::specs::Store::last_begun))]
fn last_begun(store: Store, day: u16) -> Option<National>
    ensures { result ≡ last_begun (set_at store.entry.numbers.now) day (set_count store.entry.numbers.now) }
{
    for i in (0..store.count()).rev() {
        let set = store.set(i);
        if set.day <= u32::from(day) {
            return Some(set.figures);
        }
    }
    None
}

// The figures that a job uses, where a set has begun for it: the recommended ones without a day.
#[tactic(auto, unfolding(figures::specs::Store::set_in_use))]
fn set_in_use(store: Store, day: Option<u16>) -> Option<National>
    ensures { result ≡ set_in_use store.entry.numbers.now day }
{
    match day {
        None => Some(National::recommended()),
        Some(day) => last_begun(store, day),
    }
}

// Refuses a day on which no set has begun. Sets stand in the order of their days, so the first one tells.
#[tactic(auto, unfolding(figures::specs::Store::day_refusal, figures::specs::Store::set_in_use), using(crate::proofs::Begun::by_the_first))]
pub fn check_day(store: Store, day: Option<u16>) -> Result<(), Refusal>
    ensures { number_in result ≡ day_refusal store.entry.numbers.now day }
{
    match day {
        Some(day) if store.count() == 0 || u32::from(day) < store.set(0).day => {
            Err(Refusal::NoSetBegun)
        }
        _ => Ok(()),
    }
}

// The national figures that a job uses: those of the last set begun, and the recommended ones without a day.
#[tactic(auto, unfolding(figures::specs::Store::figures_in_use))]
pub fn figures_for(store: Store, day: Option<u16>) -> National
    ensures figures { result ≡ figures_in_use store.entry.numbers.now day }
    ensures ranges { NationalIn result }
{
    set_in_use(store, day).unwrap_or_else(National::recommended)
}
