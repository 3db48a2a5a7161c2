// Kinds 4 and 9: a code that names a valley has its drift, any other the arrangement of the slopes.
ghost use Rattle.std.specs.Prelude.{◌≡◌, ◌≤◌, ◌<◌};
ghost use Rattle.figures.specs.Bounds.{MultiSpanIn};
ghost use Rattle.ramps.specs.Ramps.{ramp_of};
ghost use Rattle.standard.specs.ValleyDrift.{spans_stretch, spans_count};

use codes::named_drift;
use figures::Spans;
use loads::Ground;
use ramps::Ramp;
use slope_ramps::multi_span_ramp;
use valley_drifts::valley_ramp;

// How many stretches the roof has.
#[tactic(auto, unfolding(standard::specs::ValleyDrift::spans_count))]
pub fn spans_count(count: u8, code: u8) -> usize
    requires { count ≤ 16 }
    ensures { (result ≡ spans_count count code) × (result ≤ 32) }
{
    match named_drift(count.saturating_sub(1), code) {
        Some(_) => 4,
        None => 2 * usize::from(count),
    }
}

// The stretch at an index.
#[tactic(auto, using(standard::proofs::ValleyDrift::named_in), unfolding(standard::specs::ValleyDrift::spans_count, standard::specs::ValleyDrift::spans_stretch))]
pub fn spans_ramp(spans: &Spans, count: u8, code: u8, ground: Ground, i: usize) -> Ramp
    requires { MultiSpanIn count spans.now × (i < spans_count count code) }
    ensures { result ≡ ramp_of (spans_stretch ground.factor ground.sk spans.now count code i) }
{
    match named_drift(count.saturating_sub(1), code) {
        Some(valley) => valley_ramp(spans, usize::from(count), valley, ground.sk, i),
        None => multi_span_ramp(spans, usize::from(count), code, ground, i),
    }
}
