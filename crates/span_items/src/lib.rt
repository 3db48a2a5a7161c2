// The items of a multi-span roof, kinds 4 and 9.
#![tactic(auto, unfolding(crate::specs::SpanItems::multi_span_item, crate::specs::SpanItems::drifted_item))]

ghost use Rattle.std.specs.Prelude.{◌≡◌, ◌<◌, ◌≤◌, MatchResult, length};
ghost use Rattle.little_endian.specs.Numbers.{byte_at};
ghost use Rattle.span_items.specs.SpanItems.{multi_span_item, drifted_item, spans_said, with_spans, SpansThere, SpansHeld};

use figures::{Refusal, Shape, Spans};
use item_forms::{Decoded, Item, check_length};
use span_numbers::{put_drifted, put_slopes, spans_held};

// The count of spans; an item without its byte is refused.
fn count_at(p: &[u8]) -> Result<u8, Refusal>
    ensures { MatchResult result (λ count. (count ≡ byte_at p.now 1) × (2 ≤ length p.now)) (λ e. (e ≡ Refusal.ItemLength) × (length p.now < 2)) }
{
    p.get(1).copied().ok_or(Refusal::ItemLength)
}

// A multi-span roof, kind 4, by its shape alone.
pub fn multi_span_content(p: &[u8]) -> Result<Item, Refusal>
    ensures { result ≡ multi_span_item p.now }
{
    let count = count_at(p)?;
    check_length(p, 2 + 12 * usize::from(count))?;
    Ok(Item::RoofItem(Shape::MultiSpan {
        count,
        drifts: false,
    }))
}

// A multi-span roof with drifts in its valleys, kind 9, by its shape alone.
pub fn drifted_content(p: &[u8]) -> Result<Item, Refusal>
    ensures { result ≡ drifted_item p.now }
{
    let count = count_at(p)?;
    if count == 0 {
        return Err(Refusal::ItemLength);
    }
    check_length(p, 20 * usize::from(count) - 6)?;
    Ok(Item::RoofItem(Shape::MultiSpan {
        count,
        drifts: true,
    }))
}

// The spans of a roof of a shape, by its item's bytes. For the crates above, which have decoded it.
pub fn spans_in(p: &[u8], shape: Shape) -> Spans
    requires { SpansThere shape p.now }
    ensures { result ≡ spans_said shape p.now }
{
    let mut spans = Spans::none();
    if let Shape::MultiSpan { count, drifts } = shape {
        let count = usize::from(count);
        if drifts {
            put_drifted(p, count, &mut spans);
        } else {
            put_slopes(p, spans_held(count), &mut spans.slopes);
        }
    }
    spans
}

// An item with its spans beside it, which are read from its bytes.
pub fn with_spans(p: &[u8], item: Result<Item, Refusal>) -> Decoded
    requires { SpansHeld item p.now }
    ensures { result ≡ with_spans item p.now }
{
    let spans = match item {
        Ok(Item::RoofItem(shape)) => spans_in(p, shape),
        _ => Spans::none(),
    };
    Decoded { item, spans }
}

// A multi-span roof, kind 4, with its spans.
pub fn multi_span_item(p: &[u8]) -> Decoded
    ensures { result ≡ with_spans (multi_span_item p.now) p.now }
{
    with_spans(p, multi_span_content(p))
}

// A multi-span roof with drifts in its valleys, kind 9, with its spans.
pub fn drifted_item(p: &[u8]) -> Decoded
    ensures { result ≡ with_spans (drifted_item p.now) p.now }
{
    with_spans(p, drifted_content(p))
}
