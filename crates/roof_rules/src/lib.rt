// The value rules on a roof, refusals 8, 9 and 10, by its shape.
#![tactic(auto)]

ghost use Rattle.std.specs.Prelude.{◌≡◌};
ghost use Rattle.figures.specs.Refusal.{number_in};
ghost use Rattle.figures.specs.RoofRules.{shape_refusal, roof_refusal};

use figures::{Refusal, Roof, Shape, Spans};
use kind_rules::{
    check_cylindrical, check_monopitch, check_multi_span, check_obstruction, check_pitched,
    check_projection,
};
use lower_rules::check_abutting;

// The first value rule that a shape with its slopes breaks.
#[tactic(auto, unfolding(figures::specs::RoofRules::shape_refusal))]
pub fn check_shape(shape: Shape, spans: &Spans) -> Result<(), Refusal>
    ensures { number_in result ≡ shape_refusal shape spans.now }
{
    match shape {
        Shape::Monopitch(slope) => check_monopitch(slope),
        Shape::Pitched { left, right } => check_pitched(left, right),
        Shape::MultiSpan { count, drifts } => check_multi_span(count, drifts, spans),
        Shape::Cylindrical(arch) => check_cylindrical(arch),
        Shape::Abutting(roof) => check_abutting(roof),
        Shape::Projection(roof) => check_projection(roof),
        Shape::Obstructed(by) => check_obstruction(by),
    }
}

// The same of a roof.
pub fn check_roof(roof: &Roof) -> Result<(), Refusal>
    ensures { number_in result ≡ roof_refusal roof.now }
{
    check_shape(roof.shape, &roof.spans)
}
