// A roof drawn from its other end: "For kinds 3, 4 and 7, with left and right exchanged and spans in reverse order".
ghost use Rattle.std.specs.Prelude.{◌≤◌};

use figures::{ProjectionRoof, Roof, Shape, Slope, Spans, Valley};

// The spans of the widest roof.
const MOST_SPANS: usize = 16;

// Each span has the slopes of the one as far from the other end, exchanged; what stands behind so many spans stays.
fn opposite_slopes(slopes: &[Slope; 32], count: usize) -> [Slope; 32]
    requires { count ≤ 16 }
{
    let mut turned = *slopes;
    for i in 0..count {
        let opposite = count - 1 - i;
        turned[2 * i] = slopes[2 * opposite + 1];
        turned[2 * i + 1] = slopes[2 * opposite];
    }
    turned
}

// A valley lies behind each span but the last, so there is one less.
fn opposite_valleys(valleys: &[Valley; 15], count: usize) -> [Valley; 15]
    requires { count ≤ 16 }
{
    let mut turned = *valleys;
    for i in 1..count {
        turned[i - 1] = valleys[count - 1 - i];
    }
    turned
}

// A count that is too high takes all the spans that there is room for.
fn opposite_spans(spans: &Spans, count: u8) -> Spans {
    let count = usize::from(count).min(MOST_SPANS);
    Spans {
        slopes: opposite_slopes(&spans.slopes, count),
        valleys: opposite_valleys(&spans.valleys, count),
    }
}

// The roof from its other end, if it is of kind 3, 4 or 7; a roof of another kind stays as it is.
pub fn turned(roof: &Roof) -> Option<Roof> {
    let mut turned = *roof;
    match roof.shape {
        Shape::Pitched { left, right } => {
            turned.shape = Shape::Pitched {
                left: right,
                right: left,
            };
        }
        Shape::MultiSpan {
            count,
            drifts: false,
        } => turned.spans = opposite_spans(&roof.spans, count),
        Shape::Projection(ProjectionRoof { h, left, right }) => {
            turned.shape = Shape::Projection(ProjectionRoof {
                h,
                left: right,
                right: left,
            });
        }
        _ => return None,
    }
    Some(turned)
}

// "On kind 3, codes 2 and 3 change places, 12 and 13 as well": the other slope is the halved one.
pub fn turned_code(shape: Shape, code: u8) -> u8 {
    if !matches!(shape, Shape::Pitched { .. }) {
        return code;
    }
    match code {
        2 | 12 => code + 1,
        3 | 13 => code - 1,
        _ => code,
    }
}
