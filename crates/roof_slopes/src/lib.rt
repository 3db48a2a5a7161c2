// The slopes of a roof of kind 2 or 3 by their numbers.
#![tactic(auto)]

ghost use Rattle.std.specs.Prelude.{◌≡◌};
ghost use Rattle.figures.specs.Slopes.{slope_at};

use figures::{GuardedSlope, Shape};

// The slope of a roof by its number: 1 left or only, 2 right. Kinds 2 and 3 alone have slopes here. Any number may
// be asked for.
#[tactic(auto, unfolding(figures::specs::Slopes::slope_at))]
pub fn slope_of(shape: Shape, number: u8) -> Option<GuardedSlope>
    ensures { result ≡ slope_at shape number }
{
    match (shape, number) {
        (Shape::Monopitch(slope), 1) => Some(slope),
        (Shape::Pitched { left, .. }, 1) => Some(left),
        (Shape::Pitched { right, .. }, 2) => Some(right),
        _ => None,
    }
}
