// The ramps of roofs with drifts: cylindrical roofs, lower roofs at a taller one, and projections. Code 1 is without drifts: codes are told
// by document 01's numbers.
// These calls are for the crates above: what they require, accepted figures keep. Each names what it uses of its own shape: a type for each
// accepted shape, and one for accepted national figures, would say their fields again.
#![tactic(auto)]

mod abutting;
mod cylindrical;
mod projection;

pub use abutting::{abutting_count, abutting_ramp};
pub use cylindrical::{cylindrical_count, cylindrical_ramp};
pub use projection::{projection_count, projection_ramp};
