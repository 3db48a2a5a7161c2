// Exceptional drifts in the valleys of a multi-span roof (Annex B, B2).
// These calls are for the crates above: what they require, accepted figures keep. Each names what it uses: a drift takes sk
// alone, since no factor plays a part in it.
#![tactic(auto)]

ghost use Rattle.std.specs.Prelude.{◌≡◌, ℕ, suc, ◌+◌, ◌*◌, ◌≤◌, ◌<◌};
ghost use Rattle.figures.specs.Bounds.{SlopeIn, MultiSpanIn};
ghost use Rattle.figures.specs.Spans.{slope_of};
ghost use Rattle.ramps.specs.Ramps.{ramp_of};
ghost use Rattle.rounding.specs.Load.{alone, break_load};
ghost use Rattle.standard.specs.Units.{parts, largest_part};
ghost use Rattle.standard.specs.ValleyDrift.{valley_peak, valley_drift};

use drift_peaks::peak_load;
use figures::Spans;
use ramps::Ramp;
use slope_ramps::widths_between;

// The load at valley v.
#[tactic(auto, unfolding(figures::specs::Spans::slope_of, figures::specs::Spans::valley_of, standard::specs::ValleyDrift::valley_peak))]
fn valley_load(spans: &Spans, v: usize, sk: u64) -> u64
    requires { (v < 15) × ((i : ℕ) → i < 2 * v + 4 → SlopeIn (slope_of spans.now i)) × (sk ≤ 25000) }
    ensures { (result ≡ break_load parts (alone (valley_peak sk spans.now v))) × (result ≤ largest_part) }
{
    let left = spans.slopes[2 * v + 1];
    let right = spans.slopes[2 * v + 2];
    let valley = spans.valleys[v];
    let ls = u64::from(left.width) + u64::from(right.width);
    peak_load(5, valley.h, valley.b3, ls, sk)
}

// The stretch at an index of the drift in valley v: bare roof up to a ridge, the valley's two slopes, bare roof from the next
// ridge on.
pub fn valley_ramp(spans: &Spans, count: usize, v: usize, sk: u64, i: usize) -> Ramp
    requires { MultiSpanIn count spans.now × (suc v < count) × (sk ≤ 25000) }
    ensures { result ≡ ramp_of (valley_drift sk spans.now count v i) }
{
    match i {
        0 => Ramp::even(4 * widths_between(spans, 0, 2 * v + 1), 0),
        1 => {
            let slope = spans.slopes[2 * v + 1];
            Ramp::whole(4 * u64::from(slope.width), 0, valley_load(spans, v, sk))
        }
        2 => {
            let slope = spans.slopes[2 * v + 2];
            Ramp::whole(4 * u64::from(slope.width), valley_load(spans, v, sk), 0)
        }
        _ => Ramp::even(4 * widths_between(spans, 2 * v + 3, 2 * count), 0),
    }
}
