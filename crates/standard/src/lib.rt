// EN 1991-1-3 as document 01 lays it out: the definitions stand in specs/, the theorems on them in proofs/.
// The code is the number of parts that loads are counted in, and the lengths of a drift.
#![tactic(auto)]

// How many parts a N/m² has: loads are counted in tenths up to the one that is returned.
pub const PARTS: u64 = 10;

// The four lengths of an exceptional drift of Annex B in mm, from left to right: bare roof, the ramp up to a peak, the ramp down
// from a peak, bare roof.
#[derive(Clone, Copy, Debug, PartialEq, Eq)]
pub struct Lengths {
    pub before: u64,
    pub up: u64,
    pub down: u64,
    pub after: u64,
}
