// The break loads of every kind of roof in tenths of a N/m², each part rounded up, and the lengths of drifts and loaded arches.
// These calls are for the crates above: what they require, accepted figures keep. Each names what it uses of a shape, so that it asks no
// more.
#![tactic(auto)]

mod ground;
mod lengths;

pub use ground::Ground;
pub use lengths::{drift_length, loaded_width};
