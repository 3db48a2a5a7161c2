// The order in which the roofs of a sheet are listed: every upper roof before what stands below it.
#![tactic(auto)]

ghost use Rattle.std.specs.Prelude.{◌≡◌, ◌++◌, ◌-◌, ◌≤◌, length, drop};
ghost use Rattle.std.specs.List.{find, range_with_len};
ghost use Rattle.circles.specs.Following.{upper_in};
ghost use Rattle.order.specs.Order.{marked_in, ready, order, up_to};

use circles::upper_of;

// Whether item i is marked.
fn marked(marks: &[bool], i: usize) -> bool
    ensures { result ≡ marked_in marks.now i }
{
    marks.get(i).copied().unwrap_or(false)
}

// Whether roof i is left and its upper item, if it has one, is marked.
#[tactic(auto, unfolding(crate::specs::Order::ready))]
fn is_ready(upper: &[u8], marks: &[bool], i: usize) -> bool
    ensures { result ≡ ready (upper_in upper.now) (marked_in marks.now) i }
{
    let above = upper_of(upper, i);
    !marked(marks, i) && (above == 0 || marked(marks, above))
}

// The lowest roof that is ready, if one is.
fn next_roof(upper: &[u8], marks: &[bool], n: usize) -> Option<usize>
    ensures { result ≡ find (ready (upper_in upper.now) (marked_in marks.now)) (range_with_len 1 (n - 1)) }
{
    (1..n).find(|i| is_ready(upper, marks, *i))
}

// Writes the roofs of a sheet of n items in the order of the listing, and answers how many. Bytes behind them stay. The tables are as long
// as the largest sheet's, since there is no heap, so n stands beside them.
pub fn list_order(upper: &[u8], n: usize, out: &mut [u8]) -> usize
    requires { (n ≤ 32) × (n ≤ length out.old) }
    ensures value { (result ≡ length (order (upper_in upper.now) n)) × (result ≤ n) }
    ensures out_after { out.new ≡ order (upper_in upper.now) n ++ drop result out.old }
{
    let mut marks = [false; 32];
    let roofs = n.saturating_sub(1);
    for k in 0..roofs {
        let Some(i) = next_roof(upper, &marks, n) else {
            return k;
        };
        marks[i] = true;
        out[k] = i as u8;
    }
    roofs
}

// Writes the roofs of a sheet of n items in the order of their indexes. Bytes behind them stay.
pub fn list_by_index(n: usize, out: &mut [u8])
    requires { (n ≤ 32) × (n ≤ length out.old) }
    ensures { out.new ≡ up_to (n - 1) ++ drop (n - 1) out.old }
{
    for k in 0..n.saturating_sub(1) {
        out[k] = (k + 1) as u8;
    }
}
