// The loads at the peaks of exceptional drifts (Annex B), in tenths of a N/m².
// These calls are for the crates above: what they require, accepted figures keep.
#![tactic(auto)]

ghost use Rattle.std.specs.Prelude.{◌≡◌, ◌≤◌};
ghost use Rattle.figures.specs.Bounds.{Within};
ghost use Rattle.rounding.specs.Load.{alone, break_load};
ghost use Rattle.standard.specs.Drift.{peak};
ghost use Rattle.standard.specs.Obstruction.{side_peak};
ghost use Rattle.standard.specs.Units.{parts, largest_part};

use standard::PARTS;

// The smallest of 2h, 2 × b × sk/ls and so many times sk, rounded up: each limit times ls, and one division.
pub fn peak_load(times: u64, h: u32, b: u32, ls: u64, sk: u64) -> u64
    requires { (times ≤ 8) × Within 1 200000 ls × (sk ≤ 25000) }
    ensures { (result ≡ break_load parts (alone (peak times h b ls sk))) × (result ≤ largest_part) }
{
    let depth = 2 * u64::from(h) * ls;
    let width = 2 * u64::from(b) * sk;
    let ground = times * sk * ls;
    let smallest = depth.min(width).min(ground);
    rounding::ceil_div(PARTS * smallest, ls)
}

// The smaller of 2h and 5 × sk, a whole number of N/m².
pub fn side_load(h: u32, sk: u64) -> u64
    requires { (h ≤ 1000) × (sk ≤ 25000) }
    ensures { (result ≡ break_load parts (alone (side_peak h sk))) × (result ≤ largest_part) }
{
    PARTS * u64::from(2 * h).min(5 * sk)
}
