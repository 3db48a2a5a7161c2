// How far a roof reaches.
use figures::{AbuttingRoof, Arch, ProjectionRoof, Roof, Shape};
use second_numbers::quarters;
use second_shapes::{obstructed_length, slope_start};

// The roof's end in quarter millimetres.
pub fn roof_end(roof: &Roof) -> u32 {
    match roof.shape {
        Shape::Monopitch(guarded) => quarters(guarded.slope.width),
        Shape::Pitched { left, right } => {
            quarters(left.slope.width.saturating_add(right.slope.width))
        }
        Shape::MultiSpan { count, .. } => slope_start(&roof.spans, 2 * usize::from(count)),
        Shape::Cylindrical(Arch { span, .. }) => quarters(span),
        Shape::Abutting(AbuttingRoof { b2, .. }) => quarters(b2),
        Shape::Projection(ProjectionRoof { left, right, .. }) => {
            quarters(left.saturating_add(right))
        }
        Shape::Obstructed(by) => quarters(obstructed_length(by)),
    }
}
