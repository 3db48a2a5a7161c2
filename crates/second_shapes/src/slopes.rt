// Kinds 2, 3 and 4: roofs of slopes.
ghost use Rattle.std.specs.Prelude.{◌≤◌, ◌<◌};

use figures::{GuardedSlope, Slope, Spans};
use second_numbers::{Ratio, Segment, quarters};

// μ1 without a guard: 0.8 up to 30°; 0.8(60 − α)/30 between; 0 from 60°.
fn bare_slope(pitch: u32) -> Ratio {
    match pitch {
        0..=300 => Ratio::EIGHT_TENTHS,
        301..=599 => Ratio::new(8 * (600 - pitch), 3_000),
        _ => Ratio::NOTHING,
    }
}

// μ1: with a guard never below 0.8.
pub fn on_slope(guarded: GuardedSlope) -> Ratio {
    let bare = bare_slope(guarded.slope.pitch);
    if guarded.guard == 1 {
        bare.max(Ratio::EIGHT_TENTHS)
    } else {
        bare
    }
}

// μ2 of the mean of a valley's two pitches: 0.8 + 0.8α/30 up to 30°, then 1.6.
fn in_valley(left: Slope, right: Slope) -> Ratio {
    let twice = left.pitch.saturating_add(right.pitch);
    Ratio::new(twice.saturating_mul(8).saturating_add(4_800), 6_000).min(Ratio::new(16, 10))
}

// Kind 2: μ1.
pub fn on_monopitch(guarded: GuardedSlope) -> Segment {
    Segment::even(0, quarters(guarded.slope.width), on_slope(guarded))
}

// Kind 3, a slope that begins at a place, halved or whole.
fn on_pitched(guarded: GuardedSlope, start: u32, half: bool) -> Segment {
    let end = start.saturating_add(quarters(guarded.slope.width));
    let ratio = on_slope(guarded);
    Segment::even(start, end, if half { ratio.halved() } else { ratio })
}

// Kind 3, the left slope: code 2 halves it.
pub fn on_left(left: GuardedSlope, code: u8) -> Segment {
    on_pitched(left, 0, code == 2)
}

// Kind 3, the right slope: code 3 halves it.
pub fn on_right(left: GuardedSlope, right: GuardedSlope, code: u8) -> Segment {
    on_pitched(right, quarters(left.slope.width), code == 3)
}

// Where the slope at an index starts.
pub fn slope_start(spans: &Spans, i: usize) -> u32 {
    spans.slopes.iter().take(i).fold(0, |start: u32, slope| {
        start.saturating_add(quarters(slope.width))
    })
}

// Kind 4: code 1 and the two outer slopes are even at μ1. In code 2 the others run from μ1 at the ridge to μ2 at the valley; even ones
// rise to a ridge, odd ones fall to a valley.
pub fn on_spans(spans: &Spans, count: usize, code: u8, i: usize) -> Segment
    requires { (i < 32) × (count ≤ 32) }
{
    let slope = spans.slopes[i];
    let start = slope_start(spans, i);
    let end = start.saturating_add(quarters(slope.width));
    let ridge = on_slope(GuardedSlope { slope, guard: 0 });
    if code == 1 || i == 0 || count <= i + 1 {
        Segment::even(start, end, ridge)
    } else if i % 2 == 0 {
        Segment::uncut(start, end, in_valley(spans.slopes[i - 1], slope), ridge)
    } else {
        Segment::uncut(start, end, ridge, in_valley(slope, spans.slopes[i + 1]))
    }
}
