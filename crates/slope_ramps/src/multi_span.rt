// Kind 4, a multi-span roof (5.3.4).
ghost use Rattle.std.specs.Prelude.{cond, ◌≡◌, eqb, ◌||◌, ◌*◌, ◌+◌, ◌-◌, ◌%◌, ◌≤◌, ◌<◌, length, sum_by};
ghost use Rattle.figures.specs.Bounds.{SlopeIn};
ghost use Rattle.figures.specs.Spans.{slope_of};
ghost use Rattle.ramps.specs.Ramps.{ramp_of};
ghost use Rattle.standard.specs.MultiSpan.{multi_span, widths};

use figures::{GuardedSlope, Slope, Spans};
use loads::Ground;
use ramps::Ramp;

// The slope across slope i's valley: the one before a left slope, the one after a right slope.
#[tactic(auto, using(std::proofs::lemmas::Bool::Decides::nat_tests))]
fn across(i: usize) -> usize
    requires { (0 < i) × (i < 32) }
    ensures { (result ≡ cond (eqb (i % 2) 0) (i - 1) (i + 1)) × (result ≤ i + 1) }
{
    if i % 2 == 0 { i - 1 } else { i + 1 }
}

// Whether a slope has no drift: the first, the last, and every one in code 1.
#[tactic(auto, using(std::proofs::lemmas::Bool::Decides::nat_tests))]
fn is_level(count: usize, code: u8, i: usize) -> bool
    requires { (count ≤ 16) × (i < 32) }
    ensures { result ≡ (eqb code 1 || eqb i 0 || eqb (i + 1) (2 * count)) }
{
    code == 1 || i == 0 || i + 1 == 2 * count
}

// The stretch at an index: one slope. A left slope has its valley at its left end, a right slope at its right end.
#[tactic(auto, unfolding(figures::specs::Spans::slope_of))]
pub fn multi_span_ramp(spans: &Spans, count: usize, code: u8, ground: Ground, i: usize) -> Ramp
    requires { (count ≤ 16) × (i < 2 * count) × SlopeIn (slope_of spans.now i) }
    ensures { result ≡ ramp_of (multi_span ground.factor ground.sk spans.now count (eqb code 1) i) }
{
    let slope = spans.slopes[i];
    let extent = 4 * u64::from(slope.width);
    let own = ground.slope_load(GuardedSlope { slope, guard: 0 }, false);
    if is_level(count, code, i) {
        return Ramp::even(extent, own);
    }
    let other = spans.slopes[across(i)];
    let valley = ground.valley_load(slope.pitch, other.pitch);
    if i % 2 == 0 {
        return Ramp::whole(extent, valley, own);
    }
    Ramp::whole(extent, own, valley)
}

// The widths of slopes together, by a loop: a chain's sum would need a lemma that says the same.
fn widths_of(slopes: &[Slope]) -> u64
    requires { length slopes.now ≤ 32 }
    ensures { (result ≡ sum_by (λ slope. slope.width) slopes.now) × (result ≤ 4294967295 * length slopes.now) }
{
    let mut sum = 0;
    for slope in slopes {
        sum += u64::from(slope.width);
    }
    sum
}

// The widths together of the slopes from one on, up to another.
pub fn widths_between(spans: &Spans, from: usize, to: usize) -> u64
    requires { (from ≤ to) × (to ≤ 32) }
    ensures { (widths spans.now from + result ≡ widths spans.now to) × (result ≤ 4294967295 * 32) }
{
    widths_of(&spans.slopes[from..to])
}
