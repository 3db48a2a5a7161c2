// The store of national sets that a caller lends: 193 numbers, the count and then six a set. Its refusal, 18, for any numbers; its sets
// by their places, and whether a set may be added to it.
#![tactic(auto)]

mod set;
mod store;

pub use set::{SET_NUMBERS, set_from, set_sound};
pub use store::{MOST_SETS, STORE_NUMBERS, Store, set_at};
