// One way to write a sheet: without gaps, items in their order, straight after the pairs. Both calls take any bytes.
#![tactic(auto)]

mod archived;
mod written;

pub use archived::archive;
pub use ceilings::SHEET_BYTES;
pub use national_sets::STORE_NUMBERS;
pub use written::write;
