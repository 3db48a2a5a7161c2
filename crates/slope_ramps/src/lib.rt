// The ramps of roofs of plain slopes: monopitch, pitched and multi-span roofs.
// These calls are for the crates above: what they require, accepted figures keep. Each names what it uses, so that it asks no
// more; codes are told by document 01's numbers.
#![tactic(auto)]

mod monopitch;
mod multi_span;
mod pitched;

pub use monopitch::slope_ramp;
pub use multi_span::{multi_span_ramp, widths_between};
pub use pitched::pitched_ramp;
