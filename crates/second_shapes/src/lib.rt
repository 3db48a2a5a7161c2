// The second calculation: the segments of a roof of each kind, with the coefficients at their ends.
#![tactic(auto)]

mod arch;
mod drifts;
mod obstructions;
mod slopes;
mod valleys;

pub use arch::{arch_count, on_cylinder};
pub use drifts::{Wall, around_projection, projection_count};
pub use obstructions::{at_obstruction, obstructed_length, obstruction_count};
pub use slopes::{on_left, on_monopitch, on_right, on_spans, slope_start};
pub use valleys::{DRIFT_SEGMENTS, in_drift};
