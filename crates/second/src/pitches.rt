// Roofs with one pitch moved by a tenth: "For kinds 2, 3 and 4", and kind 9. Slopes are counted from 0 at the left.
use crate::load_case::slope_count;
use figures::{GuardedSlope, Roof, Shape, Slope};

// The steepest pitch that a roof may have, in tenths of a degree.
const STEEPEST: u32 = 800;

// How many slopes of a roof have a pitch that can be moved.
pub fn pitch_count(roof: &Roof) -> usize {
    match roof.shape {
        Shape::Monopitch(_) => 1,
        Shape::Pitched { .. } => 2,
        Shape::MultiSpan { count, .. } => slope_count(count),
        _ => 0,
    }
}

fn moved_slope(slope: Slope, steeper: bool) -> Option<Slope> {
    let pitch = if steeper {
        slope.pitch.checked_add(1)?
    } else {
        slope.pitch.checked_sub(1)?
    };
    (pitch <= STEEPEST).then_some(Slope { pitch, ..slope })
}

fn moved_guarded(guarded: GuardedSlope, steeper: bool) -> Option<GuardedSlope> {
    let slope = moved_slope(guarded.slope, steeper)?;
    Some(GuardedSlope { slope, ..guarded })
}

// The roof with slope i steeper or flatter by a tenth of a degree; none where there is no such slope or the pitch leaves its range.
pub fn moved(roof: &Roof, i: usize, steeper: bool) -> Option<Roof> {
    let mut moved = *roof;
    match roof.shape {
        Shape::Monopitch(slope) if i == 0 => {
            moved.shape = Shape::Monopitch(moved_guarded(slope, steeper)?);
        }
        Shape::Pitched { left, right } if i == 0 => {
            let left = moved_guarded(left, steeper)?;
            moved.shape = Shape::Pitched { left, right };
        }
        Shape::Pitched { left, right } if i == 1 => {
            let right = moved_guarded(right, steeper)?;
            moved.shape = Shape::Pitched { left, right };
        }
        Shape::MultiSpan { count, .. } if i < slope_count(count) => {
            moved.spans.slopes[i] = moved_slope(roof.spans.slopes[i], steeper)?;
        }
        _ => return None,
    }
    Some(moved)
}
