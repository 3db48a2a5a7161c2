// A sheet that no rule refuses: every rule in document 01's order, under the ceiling of the caller that reads it.
ghost use Rattle.std.specs.Prelude.{◌≡◌, ◌≤◌, MatchResult};
ghost use Rattle.ceilings.specs.Ceilings.{ceiling_of};
ghost use Rattle.figures.specs.Refusal.{number_of};
ghost use Rattle.pairs.specs.Pairs.{accepted, refused, in_turn, and_then, verdict_means};
ghost use Rattle.sheet.specs.Sheet.{SheetOf, item_number, sheet_verdict, place_by, located_means};
ghost use Rattle.upper_rules.specs.UpperRules.{uppers_verdict};

use ceilings::Caller;
use figures::Refusal;
use item_rules::check_item;
use national_sets::Store;
use pair_words::Pair;
use pairs::{Items, Refused, in_turn};
use upper_rules::uppers_verdict;

// The items in turn.
#[tactic(auto, unfolding(crate::specs::Sheet::item_number))]
fn check_items(store: Store, items: Items) -> Result<usize, Refused>
    ensures { verdict_means result ≡ in_turn (item_number store.entry.numbers.now items.entry.sheet.now) items.entry.count 0 items.entry.count }
{
    in_turn(0, items.count(), |i| check_item(store, i, items.part(i)))
}

// The items in turn, then the rules on their upper items.
fn check_rules(store: Store, items: Items) -> Result<usize, Refused>
    requires { 1 ≤ items.count }
    ensures { verdict_means result ≡ and_then (in_turn (item_number store.entry.numbers.now items.entry.sheet.now) items.entry.count 0 items.entry.count)
        (uppers_verdict items.entry.sheet.now items.entry.count) }
{
    check_items(store, items)?;
    uppers_verdict(items)
}

// A sheet that no rule refuses, with the accepted store that it is read with.
#[derive(Clone, Copy)]
pub struct Sheet<'s, 'a> {
    pub store: Store<'s>,
    pub items: Items<'a>,
    ghost accepted: { SheetOf store.numbers.now items.sheet.now items.count },
}

impl<'s, 'a> Sheet<'s, 'a> {
    // Any bytes as a sheet of a caller's, read with any numbers as a store, or the first broken rule. The store is checked here, and
    // once. A sheet that passes the caller's ceiling is refused by 1 before any pair is read.
    pub fn read(store: &'s [u32], s: &'a [u8], caller: Caller) -> Result<Sheet<'s, 'a>, Refused>
        ensures { MatchResult result
            (λ sheet. (sheet.store.numbers.now ≡ store.now) × (sheet.items.sheet.now ≡ s.now)
            × (sheet_verdict store.now (ceiling_of caller) s.now ≡ accepted sheet.items.count))
            (λ e. sheet_verdict store.now (ceiling_of caller) s.now ≡ refused (number_of e.refusal) e.item) }
    {
        let store = Store::read(store)?;
        let items = Items::read(s, caller)?;
        check_rules(store, items)?;
        Ok(Sheet { store, items })
    }

    // The pair of the item at an index; 12 where the index is past the last.
    #[tactic(auto, unfolding(crate::specs::Sheet::place_by))]
    pub fn pair(self, index: usize) -> Result<Pair, Refused>
        ensures { located_means result ≡ place_by (accepted self.entry.items.count) self.entry.items.sheet.now index }
    {
        if self.items.count() <= index {
            return Err(Refused {
                refusal: Refusal::PastTheEnd,
                item: index,
            });
        }
        Ok(self.items.pair(index))
    }
}
