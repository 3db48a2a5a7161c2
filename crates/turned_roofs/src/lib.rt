// A roof drawn from its other end, and the code that it has there for a code. The calls take any figures.
#![tactic(auto)]

ghost use Rattle.std.specs.Prelude.{◌≡◌};
ghost use Rattle.figures.specs.RoofRules.{kind_of};
ghost use Rattle.turned_roofs.specs.Turned.{row_reversed, spans_reversed, turned, exchanged, turned_code};

use figures::{ProjectionRoof, Roof, Shape, Spans};

// The first elements of a row in reverse order, of a shorter row all.
#[tactic(auto, unfolding(crate::specs::Turned::row_reversed), using(crate::proofs::Rows::no_longer))]
fn reverse_first<T>(row: &mut [T], count: usize)
    ensures { row.new ≡ row_reversed row.old count }
{
    let count = count.min(row.len());
    row[..count].reverse();
}

// So many spans in reverse order, each with its slopes exchanged, and the valleys between them.
#[tactic(auto, unfolding(crate::specs::Turned::spans_reversed))]
fn reverse_spans(mut spans: Spans, count: u8) -> Spans
    ensures { result ≡ spans_reversed spans count }
{
    let count = usize::from(count);
    reverse_first(&mut spans.slopes, 2 * count);
    reverse_first(&mut spans.valleys, count.saturating_sub(1));
    spans
}

// The roof turned round, for kinds 3, 4 and 7: left and right exchanged and spans in reverse order. Any other roof is as it is.
#[tactic(auto, unfolding(crate::specs::Turned::turned, crate::specs::Turned::mirrored))]
pub fn turned(roof: Roof) -> Roof
    ensures { result ≡ turned roof }
{
    let Roof { shape, spans } = roof;
    match shape {
        Shape::Pitched { left, right } => Roof {
            shape: Shape::Pitched {
                left: right,
                right: left,
            },
            spans,
        },
        Shape::MultiSpan {
            count,
            drifts: false,
        } => Roof {
            shape,
            spans: reverse_spans(spans, count),
        },
        Shape::Projection(p) => Roof {
            shape: Shape::Projection(ProjectionRoof {
                h: p.h,
                left: p.right,
                right: p.left,
            }),
            spans,
        },
        _ => roof,
    }
}

// The code that the turned roof has for a code of a roof: 2 and 3 change places on kind 3, 12 and 13 as well.
#[tactic(auto, unfolding(crate::specs::Turned::turned_code, crate::specs::Turned::exchanged))]
pub fn turned_code(shape: Shape, code: u8) -> u8
    ensures { result ≡ turned_code (kind_of shape) code }
{
    match (shape, code) {
        (Shape::Pitched { .. }, 2) => 3,
        (Shape::Pitched { .. }, 3) => 2,
        (Shape::Pitched { .. }, 12) => 13,
        (Shape::Pitched { .. }, 13) => 12,
        _ => code,
    }
}
