// The items of a sheet.
ghost use Rattle.std.specs.Prelude.{◌≡◌, ◌+◌, ◌*◌, ◌≤◌, ◌<◌, length, MatchResult};
ghost use Rattle.ceilings.specs.Ceilings.{ceiling_of};
ghost use Rattle.figures.specs.Refusal.{number_of};
ghost use Rattle.pairs.specs.Pairs.{offset, size, accepted, refused, part, pairs_verdict, PartsIn};

use crate::reading::{pair_at, part_at, read_pairs};
use crate::turns::Refused;
use ceilings::Caller;
use pair_words::Pair;

// The items of a sheet whose count and pairs break no rule of its reader.
#[derive(Clone, Copy)]
pub struct Items<'a> {
    sheet: &'a [u8],
    count: usize,
    ghost in_sheet: { PartsIn sheet.now count },
    ghost few: { count ≤ 32 },
}

impl<'a> Items<'a> {
    // The items of any bytes as a sheet, or the first broken rule on its count and pairs.
    pub fn read(sheet: &'a [u8], caller: Caller) -> Result<Items<'a>, Refused>
        ensures { MatchResult result
            (λ items. (items.sheet.now ≡ sheet.now) × (pairs_verdict (ceiling_of caller) sheet.now ≡ accepted items.count))
            (λ e. pairs_verdict (ceiling_of caller) sheet.now ≡ refused (number_of e.refusal) e.item) }
    {
        let count = read_pairs(sheet, caller.ceiling())?;
        Ok(Items { sheet, count })
    }

    // The first items of any bytes as a sheet, as many as are known to lie in it, whatever count it says.
    pub fn lying_in(sheet: &'a [u8], count: usize) -> Items<'a>
        requires { PartsIn sheet.now count × (count ≤ 32) }
        ensures { (result.sheet.now ≡ sheet.now) × (result.count ≡ count) }
    {
        Items { sheet, count }
    }

    // The sheet that they lie in.
    pub fn bytes(self) -> &'a [u8]
        ensures { result.now ≡ self.entry.sheet.now }
    {
        self.sheet
    }

    // How many they are.
    pub fn count(self) -> usize
        ensures { (result ≡ self.entry.count) × (result ≤ 32) }
    {
        self.count
    }

    // The pair of an item.
    pub fn pair(self, i: usize) -> Pair
        requires { i < self.count }
        ensures { (result.offset ≡ offset self.entry.sheet.now i) × (result.size ≡ size self.entry.sheet.now i) }
    {
        pair_at(self.sheet, i)
    }

    // An item, as a part of the sheet.
    pub fn part(self, i: usize) -> &'a [u8]
        requires { i < self.count }
        ensures { result.now ≡ part self.entry.sheet.now i }
    {
        part_at(self.sheet, i)
    }
}
