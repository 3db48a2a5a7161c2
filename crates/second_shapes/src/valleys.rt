// Kind 9: exceptional drifts in valleys, by Annex B.
ghost use Rattle.std.specs.Prelude.{◌<◌};

use crate::slopes::slope_start;
use figures::Spans;
use second_numbers::{Ratio, Segment};

// Bare, up to the valley, down from it, bare.
pub const DRIFT_SEGMENTS: usize = 4;

// The index of the valley of a drift's code, from 0 at the left; other codes don't come here.
fn valley_of(code: u8) -> usize
    ensures { result < 15 }
{
    match code {
        31..=45 => usize::from(code - 31),
        _ => 0,
    }
}

// The coefficient at a valley: the smallest of 2h/sk, 2 × b3/(ls1 + ls2) and 5, which times sk are the three loads of A2. The slopes
// that meet there have the widths ls1 and ls2.
fn peak(spans: &Spans, valley: usize, sk: u32) -> Ratio
    requires { valley < 15 }
{
    let drift = spans.valleys[valley];
    let left = spans.slopes[2 * valley + 1];
    let right = spans.slopes[2 * valley + 2];
    let depth = Ratio::new(drift.h.saturating_mul(2), sk);
    let length = Ratio::new(
        drift.b3.saturating_mul(2),
        left.width.saturating_add(right.width),
    );
    depth.min(length).min(Ratio::new(5, 1))
}

// The segment at an index, of a roof of so many slopes: the drift falls to 0 at both ridges, and nothing lies elsewhere.
pub fn in_drift(spans: &Spans, slopes: usize, code: u8, sk: u32, i: usize) -> Segment {
    let valley = valley_of(code);
    let left_ridge = slope_start(spans, 2 * valley + 1);
    let bottom = slope_start(spans, 2 * valley + 2);
    let right_ridge = slope_start(spans, 2 * valley + 3);
    match i {
        0 => Segment::even(0, left_ridge, Ratio::NOTHING),
        1 => Segment::uncut(left_ridge, bottom, Ratio::NOTHING, peak(spans, valley, sk)),
        2 => Segment::uncut(bottom, right_ridge, peak(spans, valley, sk), Ratio::NOTHING),
        _ => Segment::even(right_ridge, slope_start(spans, slopes), Ratio::NOTHING),
    }
}
