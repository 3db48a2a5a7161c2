// An arrangement of accepted figures: how many segments it has, the ramp that each segment is cut from, by its index, for every kind
// of roof, and where the roof ends.
#![tactic(auto)]

mod arrangement;
mod kinds;
mod spans;

pub use arrangement::Arrangement;
pub use ramps::Ramp;
