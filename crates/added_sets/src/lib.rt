// A national set added to a store that the caller lends. The call takes any numbers.
#![tactic(auto)]

ghost use Rattle.std.specs.Prelude.{◌≡◌, ◌+◌, ◌≤◌, ◌<◌, eqb, length};
ghost use Rattle.added_sets.specs.Adding.{add_refusal, with_set, add_answer, added_count, store_after};
ghost use Rattle.figures.specs.Store.{set_count, set_from};

use figures::Refusal;
use national_sets::{SET_NUMBERS, Store, set_from};

// Whether numbers may be added to a store as a set.
#[tactic(auto, unfolding(crate::specs::Adding::add_refusal))]
fn may_add(store: &[u32], numbers: &[u32]) -> bool
    ensures { result ≡ eqb (add_refusal store.now numbers.now) 0 }
{
    match Store::read(store) {
        Ok(store) => numbers.len() == SET_NUMBERS && store.takes(set_from(numbers, 0)),
        Err(_) => false,
    }
}

// Writes a set behind the last one and counts it.
fn put_set(store: &mut [u32], numbers: &[u32]) -> u32
    requires { (set_count store.old < 32) × (length store.old ≡ 193) × (length numbers.now ≡ 6) }
    ensures count { result ≡ set_count store.old + 1 }
    ensures left { store.new ≡ with_set store.old (set_from numbers.now 0) }
{
    let count = store[0];
    let start = 1 + SET_NUMBERS * count as usize;
    store[0] = count + 1;
    store[start..start + SET_NUMBERS].copy_from_slice(numbers);
    count + 1
}

// Adds a set, given by its six numbers, behind the last one: the new count, or a refusal, after which the store is as it was.
#[tactic(auto, unfolding(crate::specs::Adding::add_answer, crate::specs::Adding::store_after), using(crate::proofs::Judged::room_behind))]
pub fn add_set(store: &mut [u32], numbers: &[u32]) -> Result<u32, Refusal>
    ensures answer { result ≡ add_answer store.old numbers.now }
    ensures left { store.new ≡ store_after store.old numbers.now }
    ensures few { added_count result ≤ 32 }
{
    if !may_add(store, numbers) {
        return Err(Refusal::Store);
    }
    Ok(put_set(store, numbers))
}
