// National sets against the second calculation's reading of a store: the set that each day uses, the stores that are refused, and
// what adding a set leaves. The stores are made by a rule.
#![tactic(auto)]

mod added;
mod calls;
mod days;
mod rule;
mod stores;

pub use added::sets_added;
pub use days::sets_on_days;
pub use stores::every_store;
