// A roof by the numbers of a line: its kind, and its fields in the sheet's order.
ghost use Rattle.std.specs.Prelude.{◌≤◌, IfSome};
ghost use Rattle.stored_lines.specs.Lines.{SpansFit};

use crate::words::Numbers;
use figures::{
    AbuttingRoof, Arch, GuardedSlope, Kind, Obstruction, ProjectionRoof, Roof, Shape, Slope, Spans,
    Valley,
};

// The spans of the widest multi-span roof.
const MOST_SPANS: usize = 16;

// The roof that the numbers left give, if they are as many as its kind has.
pub fn take_roof(numbers: &mut Numbers) -> Option<Roof>
    ensures { IfSome result (λ roof. SpansFit roof.shape roof.spans) }
{
    let given = numbers.left();
    let kind = Kind::try_from(u8::try_from(numbers.take()).ok()?).ok()?;
    if !fits(kind, given) {
        return None;
    }
    let shape = take_shape(numbers, kind)?;
    let spans = match shape {
        Shape::MultiSpan { drifts, .. } => take_spans(numbers, drifts),
        _ => Spans::none(),
    };
    Some(Roof { shape, spans })
}

// Kind and fields. Kind 4 has four numbers for each span, beside kind and count. Kind 9 has six for each: four, and two for the valley
// behind it, in place of which the last has kind and count. Stored roofs with a wrong count have other spans than they say.
fn fits(kind: Kind, given: usize) -> bool {
    match kind {
        Kind::Cylindrical => given == 3,
        Kind::Monopitch | Kind::Projection | Kind::Parapet => given == 4,
        Kind::SmallProjection => given == 5,
        Kind::Pitched | Kind::Abutting | Kind::Stepped => given == 7,
        Kind::MultiSpan => given % 4 == 2,
        Kind::DriftedMultiSpan => given % 6 == 0,
        Kind::Site | Kind::MapSite => false,
    }
}

// The shape of a roof of a kind; sites have none.
fn take_shape(numbers: &mut Numbers, kind: Kind) -> Option<Shape> {
    match kind {
        Kind::Monopitch => Some(take_monopitch(numbers)),
        Kind::Pitched => Some(take_pitched(numbers)),
        Kind::MultiSpan | Kind::DriftedMultiSpan => Some(Shape::MultiSpan {
            count: numbers.take_byte(),
            drifts: kind == Kind::DriftedMultiSpan,
        }),
        Kind::Cylindrical => Some(Shape::Cylindrical(Arch {
            rise: numbers.take(),
            span: numbers.take(),
        })),
        Kind::Abutting | Kind::Stepped => Some(take_abutting(numbers, kind == Kind::Stepped)),
        Kind::Projection => Some(Shape::Projection(ProjectionRoof {
            h: numbers.take(),
            left: numbers.take(),
            right: numbers.take(),
        })),
        Kind::Parapet => Some(Shape::Obstructed(Obstruction::Parapet {
            h: numbers.take(),
            b1: numbers.take(),
            b2: numbers.take(),
        })),
        Kind::SmallProjection => Some(Shape::Obstructed(Obstruction::SmallProjection {
            h1: numbers.take(),
            h2: numbers.take(),
            b1: numbers.take(),
            b2: numbers.take(),
        })),
        Kind::Site | Kind::MapSite => None,
    }
}

fn take_monopitch(numbers: &mut Numbers) -> Shape {
    let (pitch, guard) = (numbers.take(), numbers.take_byte());
    Shape::Monopitch(guarded(pitch, numbers.take(), guard))
}

fn take_pitched(numbers: &mut Numbers) -> Shape {
    let (left_pitch, right_pitch) = (numbers.take(), numbers.take());
    let (left_guard, right_guard) = (numbers.take_byte(), numbers.take_byte());
    Shape::Pitched {
        left: guarded(left_pitch, numbers.take(), left_guard),
        right: guarded(right_pitch, numbers.take(), right_guard),
    }
}

fn take_abutting(numbers: &mut Numbers, stepped: bool) -> Shape {
    let (b1, b2, h) = (numbers.take(), numbers.take(), numbers.take());
    let (width, pitch) = (numbers.take(), numbers.take());
    let slope = guarded(pitch, width, numbers.take_byte());
    Shape::Abutting(AbuttingRoof {
        b1,
        b2,
        h,
        slope,
        stepped,
    })
}

fn guarded(pitch: u32, width: u32, guard: u8) -> GuardedSlope {
    let slope = Slope { pitch, width };
    GuardedSlope { slope, guard }
}

// How many spans the line has numbers for, six each where there are drifts; without drifts it may have fewer.
fn spans_given(numbers: &Numbers, drifts: bool) -> usize
    ensures { result ≤ 33 }
{
    if drifts {
        (numbers.left() + 2) / 6
    } else {
        MOST_SPANS
    }
}

// The slopes of all spans stand before the valleys. Spans that the widest roof has no room for are passed over; what the line lacks are
// zeros.
fn take_spans(numbers: &mut Numbers, drifts: bool) -> Spans {
    let mut spans = Spans::none();
    for i in 0..spans_given(numbers, drifts) {
        let (left, right) = take_span(numbers);
        if i < MOST_SPANS {
            spans.slopes[2 * i] = left;
            spans.slopes[2 * i + 1] = right;
        }
    }
    if drifts {
        for valley in &mut spans.valleys {
            *valley = Valley {
                h: numbers.take_or_zero(),
                b3: numbers.take_or_zero(),
            };
        }
    }
    spans
}

// The slopes of a span.
fn take_span(numbers: &mut Numbers) -> (Slope, Slope) {
    let (left_pitch, right_pitch) = (numbers.take_or_zero(), numbers.take_or_zero());
    let left = Slope {
        pitch: left_pitch,
        width: numbers.take_or_zero(),
    };
    let right = Slope {
        pitch: right_pitch,
        width: numbers.take_or_zero(),
    };
    (left, right)
}
