// A second calculation of the snow on a roof, from the words of documents 01 and 02 alone. It multiplies and compares, and never
// divides a load: a load rounded up is the least whole number that reaches it, found by halving an interval.
#![tactic(auto)]

mod codes;
mod extent;
mod force;
mod load_case;
mod loads;
mod pitches;
mod turning;

pub use codes::exists;
pub use extent::roof_end;
pub use force::{guard_force, overhang};
pub use load_case::LoadCase;
pub use loads::{Ground, TENTHS, WHOLE};
pub use pitches::{moved, pitch_count};
pub use second_numbers::Segment;
pub use turning::{turned, turned_code};
