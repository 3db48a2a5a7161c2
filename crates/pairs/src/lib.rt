// The count and the pairs of a sheet, the verdict on them, refusals 1 and 2, and the items that lie at them.
#![tactic(auto)]

mod items;
mod reading;
mod turns;

pub use items::Items;
pub use reading::{pair_at, part_at, read_pairs};
pub use turns::{Refused, in_turn};
