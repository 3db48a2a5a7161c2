// The numbers of a multi-span item: the slopes of kinds 4 and 9, and the valleys of kind 9. These calls are for the crates
// above: each asks that its bytes are there.
#![tactic(auto, unfolding(crate::specs::SpanNumbers::slopes_from, crate::specs::SpanNumbers::valleys_from))]

ghost use Rattle.std.specs.Prelude.{◌≡◌, ◌+◌, ◌-◌, ◌*◌, ◌<◌, ◌≤◌, length};
ghost use Rattle.span_numbers.specs.SpanNumbers.{slopes_from, spans_held, valleys_from, drifted_from};

use figures::{Slope, Spans, Valley};
use item_forms::slope_at;
use little_endian::u32_at;

// Puts the slopes of the first count spans of a multi-span item at the front of a roof's slopes.
pub fn put_slopes(p: &[u8], count: usize, slopes: &mut [Slope; 32])
    requires { (count ≤ 16) × (2 + 12 * count ≤ length p.now) }
    ensures { slopes.new ≡ slopes_from p.now slopes.old count }
{
    for i in 0..count {
        let at = 2 + 12 * i;
        slopes[2 * i] = slope_at(p, at, at + 4);
        slopes[2 * i + 1] = slope_at(p, at + 2, at + 8);
    }
}

// How many of a count of spans a roof has room for.
pub fn spans_held(count: usize) -> usize
    ensures { result ≡ spans_held count }
{
    count.min(16)
}

// Puts the first n of the valleys that begin at a byte at the front of a roof's valleys.
fn put_valleys(p: &[u8], first: usize, n: usize, valleys: &mut [Valley; 15])
    requires { (n ≤ 15) × (first + 8 * n ≤ length p.now) }
    ensures { valleys.new ≡ valleys_from p.now first valleys.old n }
{
    for j in 0..n {
        let at = first + 8 * j;
        valleys[j] = Valley {
            h: u32_at(p, at),
            b3: u32_at(p, at + 4),
        };
    }
}

// Puts the spans of kind 9: the slopes as in kind 4, and the valleys between them.
pub fn put_drifted(p: &[u8], count: usize, spans: &mut Spans)
    requires { (0 < count) × (20 * count - 6 ≤ length p.now) }
    ensures { spans.new ≡ drifted_from p.now spans.old count }
{
    let held = spans_held(count);
    put_slopes(p, held, &mut spans.slopes);
    put_valleys(p, 2 + 12 * count, held - 1, &mut spans.valleys);
}
