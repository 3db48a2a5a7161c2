// The rules on upper items, refusals 16 and 17, over all items of a sheet.
#![tactic(auto)]

ghost use Rattle.std.specs.Prelude.{false, ◌≡◌, ◌-◌, ◌<◌};
ghost use Rattle.circles.specs.Following.{upper_in, comes_back};
ghost use Rattle.figures.specs.Refusal.{number_in};
ghost use Rattle.figures.specs.Rules.{refused_if};
ghost use Rattle.pairs.specs.Pairs.{in_turn, verdict_means};
ghost use Rattle.item_forms.specs.Forms.{is_lower};
ghost use Rattle.upper_items.specs.Uppers.{item_at};
ghost use Rattle.upper_rules.specs.UpperRules.{may_stand_above, upper_number, uppers_verdict};

use circles::comes_back;
use figures::Refusal;
use items::{content_of, is_lower};
use pairs::{Items, Refused, in_turn};
use stepped_roofs::is_upper;
use upper_items::{has_lower, upper_index, uppers};

// Whether item i is one of the items and of a kind that may stand above another.
fn may_stand_above(items: Items, i: usize) -> bool
    ensures { result ≡ may_stand_above items.entry.sheet.now items.entry.count i }
{
    i < items.count() && is_upper(&content_of(items.part(i)))
}

// A lower roof is refused whose upper item may not stand above it.
#[tactic(auto, unfolding(crate::specs::UpperRules::upper_number))]
fn check_upper(items: Items, i: usize) -> Result<(), Refusal>
    requires { i < items.count }
    ensures { number_in result ≡ upper_number items.entry.sheet.now items.entry.count i }
{
    let p = items.part(i);
    if is_lower(p) && !may_stand_above(items, usize::from(upper_index(p))) {
        return Err(Refusal::UpperItem);
    }
    Ok(())
}

// 16 over all items.
fn check_uppers(items: Items) -> Result<usize, Refused>
    ensures { verdict_means result ≡ in_turn (upper_number items.entry.sheet.now items.entry.count) items.entry.count 0 items.entry.count }
{
    in_turn(0, items.count(), |i| check_upper(items, i))
}

// 17 over the roofs of n items, by a table of their upper items. It is as long as the largest sheet's, since there is no heap.
fn check_circles(upper: &[u8], n: usize) -> Result<usize, Refused>
    requires { upper_in upper.now 0 ≡ 0 }
    ensures { verdict_means result ≡ in_turn (λ i. refused_if (comes_back (upper_in upper.now) n i) 17) n 1 (n - 1) }
{
    in_turn(1, n, |i| {
        if comes_back(upper, n, i) {
            Err(Refusal::Circle)
        } else {
            Ok(())
        }
    })
}

// The verdict on the upper items of items of which the first is no lower roof. Most sheets have no lower roof at all, and are done
// at once.
#[tactic(auto, using(crate::proofs::Passed::none_lower, crate::proofs::Passed::site_alone, crate::proofs::Passed::uppers_refused, crate::proofs::Passed::uppers_circles))]
pub fn uppers_verdict(items: Items) -> Result<usize, Refused>
    requires { is_lower (item_at items.sheet.now 0) ≡ false }
    ensures { verdict_means result ≡ uppers_verdict items.entry.sheet.now items.entry.count }
{
    let count = items.count();
    if !has_lower(items.bytes(), count) {
        return Ok(count);
    }
    check_uppers(items)?;
    check_circles(&uppers(items), count)
}
