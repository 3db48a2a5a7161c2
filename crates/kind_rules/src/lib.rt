// The value rules on a roof, refusals 8, 9 and 10: one function a kind. Those of lower roofs stand in `lower_rules`.
#![tactic(auto)]

ghost use Rattle.std.specs.Prelude.{◌≡◌};
ghost use Rattle.figures.specs.Refusal.{number_in};
ghost use Rattle.figures.specs.RoofRules.{monopitch_refusal, pitched_refusal, multi_span_refusal, cylindrical_refusal, projection_fields, projection_refusal, small_projection_fields, obstruction_refusal};

use figures::{Arch, GuardedSlope, Obstruction, ProjectionRoof, Refusal, Spans};
use slope_rules::{guarded_fields, span_fields, steep_valleys};

// Kind 2.
pub fn check_monopitch(slope: GuardedSlope) -> Result<(), Refusal>
    ensures { number_in result ≡ monopitch_refusal slope }
{
    if !guarded_fields(slope) {
        return Err(Refusal::RoofField);
    }
    Ok(())
}

// Kind 3.
pub fn check_pitched(left: GuardedSlope, right: GuardedSlope) -> Result<(), Refusal>
    ensures { number_in result ≡ pitched_refusal left right }
{
    if !(guarded_fields(left) && guarded_fields(right)) {
        return Err(Refusal::RoofField);
    }
    Ok(())
}

// Kinds 4 and 9: 8, then 9 at a valley.
#[tactic(auto, unfolding(figures::specs::Rules::first_of))]
pub fn check_multi_span(count: u8, drifts: bool, spans: &Spans) -> Result<(), Refusal>
    ensures { number_in result ≡ multi_span_refusal count drifts spans.now }
{
    if !(2..=16).contains(&count) {
        return Err(Refusal::RoofField);
    }
    let n = usize::from(count);
    if !span_fields(drifts, spans, n) {
        return Err(Refusal::RoofField);
    }
    if steep_valleys(spans, n - 1) {
        return Err(Refusal::ValleyPitch);
    }
    Ok(())
}

// Kind 5: 8, then 10.
#[tactic(auto, unfolding(figures::specs::Rules::first_of))]
pub fn check_cylindrical(arch: Arch) -> Result<(), Refusal>
    ensures { number_in result ≡ cylindrical_refusal arch }
{
    if !((1..=15_000).contains(&arch.rise) && (2..=30_000).contains(&arch.span)) {
        return Err(Refusal::RoofField);
    }
    if arch.span < 2 * arch.rise {
        return Err(Refusal::Rise);
    }
    Ok(())
}

// The fields of kinds 7 and 11: a height and two widths.
fn projection_fields(h: u32, left: u32, right: u32) -> bool
    ensures { result ≡ projection_fields h left right }
{
    (1..=30_000).contains(&h) && (1..=100_000).contains(&left) && (1..=100_000).contains(&right)
}

// Kind 7.
pub fn check_projection(roof: ProjectionRoof) -> Result<(), Refusal>
    ensures { number_in result ≡ projection_refusal roof }
{
    if !projection_fields(roof.h, roof.left, roof.right) {
        return Err(Refusal::RoofField);
    }
    Ok(())
}

// The fields of kind 12.
fn small_projection_fields(h1: u32, h2: u32, b1: u32, b2: u32) -> bool
    ensures { result ≡ small_projection_fields h1 h2 b1 b2 }
{
    (1..=1_000).contains(&h1)
        && (1..=1_000).contains(&h2)
        && (1..=100_000).contains(&b1)
        && (1..=100_000).contains(&b2)
}

// Kinds 11 and 12.
pub fn check_obstruction(by: Obstruction) -> Result<(), Refusal>
    ensures { number_in result ≡ obstruction_refusal by }
{
    let sound = match by {
        Obstruction::Parapet { h, b1, b2 } => projection_fields(h, b1, b2),
        Obstruction::SmallProjection { h1, h2, b1, b2 } => small_projection_fields(h1, h2, b1, b2),
    };
    if !sound {
        return Err(Refusal::RoofField);
    }
    Ok(())
}
