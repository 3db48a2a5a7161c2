// The rules on a slope, and on the slopes and valleys of a multi-span roof: refusals 8 and 9.
#![tactic(auto)]

ghost use Rattle.std.specs.Prelude.{◌≡◌, ◌≤◌, ◌+◌, ◌-◌, ◌*◌};
ghost use Rattle.std.specs.List.{list_all, list_any, range_with_len};
ghost use Rattle.figures.specs.RoofRules.{slope_fields, guarded_fields, valley_fields, span_fields, steep_valley, steep_valleys};
ghost use Rattle.figures.specs.Spans.{slope_of, valley_of};

use figures::{GuardedSlope, Slope, Spans, Valley};

// Whether a slope's pitch and width lie in their ranges.
pub fn slope_fields(slope: Slope) -> bool
    ensures { result ≡ slope_fields slope }
{
    slope.pitch <= 800 && (1..=100_000).contains(&slope.width)
}

// Whether the fields of a slope lie in their ranges, and its guard is 0 or 1.
pub fn guarded_fields(guarded: GuardedSlope) -> bool
    ensures { result ≡ guarded_fields guarded }
{
    slope_fields(guarded.slope) && guarded.guard <= 1
}

// Whether every field of the first n slopes lies in its range. The chain goes over indexes as the definition does: over a slice it would
// need a lemma that both go over the same slopes. The arrays are as long as the widest roof's, so n stands beside them. That of the
// valleys stands apart, since its array and its fields are others.
#[tactic(auto, unfolding(figures::specs::Spans::slope_of))]
fn slopes_fields(spans: &Spans, n: usize) -> bool
    requires { n ≤ 32 }
    ensures { result ≡ list_all (λ i. slope_fields (slope_of spans.now i)) (range_with_len 0 n) }
{
    (0..n).all(|i| slope_fields(spans.slopes[i]))
}

// Whether a valley's depth and length lie in their ranges.
fn valley_fields(valley: Valley) -> bool
    ensures { result ≡ valley_fields valley }
{
    (1..=30_000).contains(&valley.h) && (1..=100_000).contains(&valley.b3)
}

// Whether every field of the first n valleys lies in its range.
#[tactic(auto, unfolding(figures::specs::Spans::valley_of))]
fn valleys_fields(spans: &Spans, n: usize) -> bool
    requires { n ≤ 15 }
    ensures { result ≡ list_all (λ i. valley_fields (valley_of spans.now i)) (range_with_len 0 n) }
{
    (0..n).all(|i| valley_fields(spans.valleys[i]))
}

// Whether the fields of n spans lie in their ranges: those of their slopes, and of their valleys where they have drifts.
pub fn span_fields(drifts: bool, spans: &Spans, n: usize) -> bool
    requires { (1 ≤ n) × (n ≤ 16) }
    ensures { result ≡ span_fields drifts spans.now n }
{
    slopes_fields(spans, 2 * n) && (!drifts || valleys_fields(spans, n - 1))
}

// Whether one valley, between slopes of these pitches, is refused.
fn steep_valley(left: u32, right: u32) -> bool
    ensures { result ≡ steep_valley left right }
{
    600 < left || 600 < right || (left == 600 && right == 600)
}

// Whether one of the first n valleys is refused; valley i lies between slopes 2i + 1 and 2i + 2. A chain, as that of the slopes.
#[tactic(auto, unfolding(figures::specs::Spans::slope_of))]
fn steep_among(spans: &Spans, n: usize) -> bool
    requires { n ≤ 15 }
    ensures { result ≡ list_any (λ i. steep_valley (slope_of spans.now (2 * i + 1)).pitch (slope_of spans.now (2 * i + 2)).pitch) (range_with_len 0 n) }
{
    (0..n).any(|i| steep_valley(spans.slopes[2 * i + 1].pitch, spans.slopes[2 * i + 2].pitch))
}

// Whether one of the first n valleys is refused.
pub fn steep_valleys(spans: &Spans, n: usize) -> bool
    requires { n ≤ 15 }
    ensures { result ≡ steep_valleys spans.now n }
{
    steep_among(spans, n)
}
