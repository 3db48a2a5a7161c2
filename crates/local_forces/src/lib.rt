// Local forces of kinds 2 and 3, persistent: the overhang at an eave (6.3) and the force at a guard (6.4), in N/m.
#![tactic(auto)]

mod eaves;
mod guards;

pub use eaves::{overhang, overhang_at};
pub use guards::{guard_force, guard_force_at};
