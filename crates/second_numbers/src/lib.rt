// What the second calculation reckons with: whole numbers of 256 bits, halving, exact fractions, the sine of a pitch, the segments
// that a roof's load has, and the ground load by the map.
#![tactic(auto)]

mod ground;
mod halving;
mod ratio;
mod segment;
mod sines;
mod wide;

pub use ground::ground_load;
pub use halving::least;
pub use ratio::Ratio;
pub use segment::{Segment, quarters};
pub use sines::sine;
pub use wide::Wide;
