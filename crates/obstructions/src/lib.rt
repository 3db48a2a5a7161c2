// Exceptional drifts at a parapet, kind 11, and at a projection up to 1 m high, kind 12 (Annex B, B4).
// These calls are for the crates above: what they require, accepted figures keep. A drift takes sk alone, since no factor plays a part
// in it.
#![tactic(auto)]

ghost use Rattle.std.specs.Prelude.{◌≡◌, ◌≤◌, ◌<◌};
ghost use Rattle.figures.specs.Bounds.{ObstructionIn};
ghost use Rattle.obstructions.specs.Rows.{RowIn};
ghost use Rattle.ramps.specs.Ramps.{ramp_of};
ghost use Rattle.rounding.specs.Load.{alone, break_load};
ghost use Rattle.standard.specs.Drift.{drift_row, drift_index, drift_count};
ghost use Rattle.standard.specs.Obstruction.{parapet_length, side_length, obstruction_lengths, left_peak, right_peak, obstructed, obstruction_end};
ghost use Rattle.standard.specs.Units.{parts, largest_part};

use drift_peaks::{peak_load, side_load};
use figures::Obstruction;
use ramps::Ramp;
use standard::Lengths;

// The length of the drift at a parapet.
#[tactic(auto, unfolding(standard::specs::Obstruction::parapet_length))]
fn parapet_length(h: u32, b1: u32) -> u64
    ensures { (result ≡ parapet_length h b1) × (result ≤ b1) }
{
    (5 * u64::from(h)).min(u64::from(b1).min(15_000))
}

// The length of the drift on one side of a small projection.
#[tactic(auto, unfolding(standard::specs::Obstruction::side_length))]
fn side_length(h: u32, width: u32) -> u64
    ensures { (result ≡ side_length h width) × (result ≤ width) }
{
    (5 * u64::from(h)).min(u64::from(width))
}

// The four lengths of the drift.
#[tactic(auto, unfolding(standard::specs::Obstruction::obstruction_lengths))]
fn lengths_of(by: Obstruction) -> Lengths
    ensures { result ≡ obstruction_lengths by }
{
    match by {
        Obstruction::Parapet { h, b1, .. } => {
            let down = parapet_length(h, b1);
            Lengths {
                before: 0,
                up: 0,
                down,
                after: u64::from(b1) - down,
            }
        }
        Obstruction::SmallProjection { h1, h2, b1, b2 } => {
            let up = side_length(h1, b1);
            let down = side_length(h2, b2);
            Lengths {
                before: u64::from(b1) - up,
                up,
                down,
                after: u64::from(b2) - down,
            }
        }
    }
}

// The load at the peak on the left.
#[tactic(auto, unfolding(standard::specs::Obstruction::left_peak))]
fn left_load(by: Obstruction, sk: u64) -> u64
    requires { ObstructionIn by × (sk ≤ 25000) }
    ensures { (result ≡ break_load parts (alone (left_peak by sk))) × (result ≤ largest_part) }
{
    match by {
        Obstruction::Parapet { .. } => 0,
        Obstruction::SmallProjection { h1, .. } => side_load(h1, sk),
    }
}

// The load at the peak on the right; of a parapet's two widths the larger one counts.
#[tactic(auto, unfolding(standard::specs::Obstruction::right_peak))]
fn right_load(by: Obstruction, sk: u64) -> u64
    requires { ObstructionIn by × (sk ≤ 25000) }
    ensures { (result ≡ break_load parts (alone (right_peak by sk))) × (result ≤ largest_part) }
{
    match by {
        Obstruction::Parapet { h, b1, b2 } => {
            peak_load(8, h, b1.max(b2), parapet_length(h, b1), sk)
        }
        Obstruction::SmallProjection { h2, .. } => side_load(h2, sk),
    }
}

// The index in the full row, whose first stretches may be missing.
#[tactic(auto, unfolding(standard::specs::Drift::drift_index))]
fn row_index(lengths: Lengths, i: usize) -> usize
    requires { i < 4 }
    ensures { result ≡ drift_index lengths i }
{
    if 0 < lengths.before {
        return i;
    }
    if 0 < lengths.up { i + 1 } else { i + 2 }
}

// The stretch at an index of the full row: bare, the ramp up, the ramp down, bare.
#[tactic(auto, using(ramps::proofs::Stretches::stretches), unfolding(standard::specs::Drift::drift_row))]
fn row_ramp(by: Obstruction, lengths: Lengths, sk: u64, j: usize) -> Ramp
    requires { ObstructionIn by × (sk ≤ 25000) × RowIn lengths j }
    ensures { result ≡ ramp_of (drift_row lengths (left_peak by sk) (right_peak by sk) j) }
{
    match j {
        0 => Ramp::even(4 * lengths.before, 0),
        1 => Ramp::whole(4 * lengths.up, 0, left_load(by, sk)),
        2 => Ramp::whole(4 * lengths.down, right_load(by, sk), 0),
        _ => Ramp::even(4 * lengths.after, 0),
    }
}

// The stretch at an index.
#[tactic(auto, unfolding(standard::specs::Obstruction::obstructed, standard::specs::Drift::drift))]
pub fn obstruction_ramp(by: Obstruction, sk: u64, i: usize) -> Ramp
    requires { ObstructionIn by × (sk ≤ 25000) × (i < drift_count (obstruction_lengths by)) }
    ensures { result ≡ ramp_of (obstructed sk by i) }
{
    let lengths = lengths_of(by);
    row_ramp(by, lengths, sk, row_index(lengths, i))
}

// How many stretches the roof has: the ramp down, and each other one that has a length.
#[tactic(auto, using(std::proofs::lemmas::Bool::Decides::nat_tests), unfolding(standard::specs::Drift::drift_count))]
pub fn obstruction_count(by: Obstruction) -> usize
    ensures { (result ≡ drift_count (obstruction_lengths by)) × (result ≤ 32) }
{
    let lengths = lengths_of(by);
    usize::from(0 < lengths.before)
        + (usize::from(0 < lengths.up) + (1 + usize::from(0 < lengths.after)))
}

// The roof's length in mm.
#[tactic(auto, unfolding(standard::specs::Obstruction::obstruction_end))]
pub fn obstruction_end(by: Obstruction) -> u64
    ensures { result ≡ obstruction_end by }
{
    match by {
        Obstruction::Parapet { b1, .. } => u64::from(b1),
        Obstruction::SmallProjection { b1, b2, .. } => u64::from(b1) + u64::from(b2),
    }
}
