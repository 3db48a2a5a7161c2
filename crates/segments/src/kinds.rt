// The stretch at an index of a persistent code, the number of stretches and the roof's end, by the kind of the roof.
ghost use Rattle.std.specs.Prelude.{◌≡◌, ◌*◌, ◌≤◌, ◌<◌};
ghost use Rattle.ramps.specs.Ramps.{ramp_of};
ghost use Rattle.standard.specs.Arrangements.{count_in, stretch_in, end_of};

use crate::spans::{spans_count, spans_ramp};
use drift_ramps::{
    abutting_count, abutting_ramp, cylindrical_count, cylindrical_ramp, projection_count,
    projection_ramp,
};
use figures::{AcceptedFigures, Shape};
use loads::Ground;
use obstructions::{obstruction_count, obstruction_end, obstruction_ramp};
use ramps::Ramp;
use slope_ramps::{pitched_ramp, slope_ramp, widths_between};

// The number of segments.
#[tactic(auto, unfolding(standard::specs::Arrangements::count_in))]
pub fn count_in(figures: &AcceptedFigures, code: u8) -> usize
    ensures { (result ≡ count_in figures.now.national figures.now.roof.shape code) × (result ≤ 32) }
{
    match figures.roof.shape {
        Shape::Monopitch(_) => 1,
        Shape::Pitched { .. } => 2,
        Shape::MultiSpan { count, .. } => spans_count(count, code),
        Shape::Cylindrical(arch) => cylindrical_count(arch, code),
        Shape::Abutting(roof) => abutting_count(figures.national, roof, code),
        Shape::Projection(roof) => projection_count(roof),
        Shape::Obstructed(by) => obstruction_count(by),
    }
}

// The stretch at an index, with its break loads. Codes are told by document 01's numbers.
#[tactic(auto, unfolding(standard::specs::Arrangements::stretch_in, standard::specs::Monopitch::monopitch))]
pub fn ramp_in(figures: &AcceptedFigures, code: u8, ground: Ground, i: usize) -> Ramp
    requires { i < count_in figures.now.national figures.now.roof.shape code }
    ensures { let f = figures.now in result ≡ ramp_of (stretch_in f.national f.roof.shape f.roof.spans ground.factor ground.sk code i) }
{
    let national = figures.national;
    match figures.roof.shape {
        Shape::Monopitch(slope) => slope_ramp(slope, false, ground),
        Shape::Pitched { left, right } => pitched_ramp(left, right, code, ground, i),
        Shape::MultiSpan { count, .. } => spans_ramp(&figures.roof.spans, count, code, ground, i),
        Shape::Cylindrical(arch) => cylindrical_ramp(national, arch, code, ground, i),
        Shape::Abutting(roof) => abutting_ramp(national, roof, code, ground, i),
        Shape::Projection(roof) => projection_ramp(roof, ground, i),
        Shape::Obstructed(by) => obstruction_ramp(by, ground.sk, i),
    }
}

// The roof's length in mm.
#[tactic(auto, unfolding(standard::specs::Arrangements::end_of, standard::specs::Arrangements::end_in, standard::specs::MultiSpan::widths))]
fn length(figures: &AcceptedFigures) -> u64
    ensures { 4 * result ≡ end_of figures.now.roof }
{
    match figures.roof.shape {
        Shape::Monopitch(slope) => u64::from(slope.slope.width),
        Shape::Pitched { left, right } => {
            u64::from(left.slope.width) + u64::from(right.slope.width)
        }
        Shape::MultiSpan { count, .. } => {
            widths_between(&figures.roof.spans, 0, 2 * usize::from(count))
        }
        Shape::Cylindrical(arch) => u64::from(arch.span),
        Shape::Abutting(roof) => u64::from(roof.b2),
        Shape::Projection(roof) => u64::from(roof.left) + u64::from(roof.right),
        Shape::Obstructed(by) => obstruction_end(by),
    }
}

// The same in quarter millimetres.
pub fn end_in(figures: &AcceptedFigures) -> u64
    ensures { result ≡ end_of figures.now.roof }
{
    4 * length(figures)
}
