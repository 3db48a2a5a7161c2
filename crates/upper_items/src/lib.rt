// The upper items of a sheet's items, and the order in which its roofs are listed.
#![tactic(auto)]

ghost use Rattle.std.specs.Prelude.{◌≡◌, ◌++◌, length, drop, replicate};
ghost use Rattle.circles.specs.Following.{upper_in};
ghost use Rattle.items.specs.Items.{content};
ghost use Rattle.pairs.specs.Pairs.{PartsIn};
ghost use Rattle.upper_items.specs.Uppers.{upper_index, upper, stepped_in, roof_order};

use items::is_lower;
use order::{list_by_index, list_order};
use pairs::{Items, part_at};

// The most items that a sheet has. Tables of items are as long, since the terminals have no heap.
pub const ITEMS: usize = 32;

// Where the index of its upper item stands in a lower roof's item. That it agrees with what the item says is proved: no item is
// decoded here.
const UPPER_BYTE: usize = 9;

// The index of an item's upper item. 0, the site's index, says none: no roof stands below the site.
pub fn upper_index(p: &[u8]) -> u8
    ensures { result ≡ upper_index (content p.now) }
{
    if is_lower(p) { p[UPPER_BYTE] } else { 0 }
}

// Whether one of the first n items is a lower roof, of any n that lie in the sheet.
#[tactic(auto, unfolding(crate::specs::Uppers::stepped_in))]
pub fn has_lower(s: &[u8], n: usize) -> bool
    requires { PartsIn s.now n }
    ensures { result ≡ stepped_in s.now n }
{
    (0..n).any(|i| is_lower(part_at(s, i)))
}

// The upper item of each of the items.
pub fn uppers(items: Items) -> [u8; ITEMS]
    ensures { upper_in result ≡ upper items.entry.sheet.now items.entry.count }
{
    let mut table = [0; ITEMS];
    for i in 0..items.count() {
        table[i] = upper_index(items.part(i));
    }
    table
}

// The roofs of a sheet in the order of the listing, and zeros behind them.
pub fn roof_order(items: Items) -> [u8; ITEMS]
    ensures { let roofs = roof_order items.entry.sheet.now items.entry.count in result ≡ roofs ++ drop (length roofs) (replicate 32 0) }
{
    let mut roofs = [0; ITEMS];
    if has_lower(items.bytes(), items.count()) {
        list_order(&uppers(items), items.count(), &mut roofs);
    } else {
        list_by_index(items.count(), &mut roofs);
    }
    roofs
}
