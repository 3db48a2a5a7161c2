// The reader: the verdict on any bytes as a sheet, and its items.
ghost use Rattle.std.specs.Prelude.{◌≡◌, ◌≤◌, IfOk};
ghost use Rattle.ceilings.specs.Ceilings.{ceiling_of};
ghost use Rattle.pairs.specs.Pairs.{verdict_means};
ghost use Rattle.sheet.specs.Sheet.{sheet_verdict, place, part_at, located_means};

use crate::accepted::Sheet;
use ceilings::Caller;
use pair_words::Pair;
use pairs::Refused;

// The verdict on any bytes as a sheet of a caller's, read with any numbers as a store: the count of its items, or the first broken
// rule with the item that it names.
pub fn verdict(store: &[u32], s: &[u8], caller: Caller) -> Result<usize, Refused>
    ensures value { verdict_means result ≡ sheet_verdict store.now (ceiling_of caller) s.now }
    ensures few { IfOk result (λ n. n ≤ 32) }
{
    let sheet = Sheet::read(store, s, caller)?;
    Ok(sheet.items.count())
}

// Where the item at an index lies in a caller's sheet, or the first broken rule; 12 for the index comes last.
#[tactic(auto, unfolding(crate::specs::Sheet::place, crate::specs::Sheet::place_by))]
pub fn locate(store: &[u32], s: &[u8], caller: Caller, index: usize) -> Result<Pair, Refused>
    ensures { located_means result ≡ place store.now (ceiling_of caller) s.now index }
{
    let sheet = Sheet::read(store, s, caller)?;
    sheet.pair(index)
}

// The item at an index, as that part of the caller's sheet. It always answers a part, the empty one where `locate` refuses and says why.
pub fn item<'a>(store: &[u32], s: &'a [u8], caller: Caller, index: usize) -> &'a [u8]
    ensures { result.now ≡ part_at (place store.now (ceiling_of caller) s.now index) s.now }
{
    match locate(store, s, caller, index) {
        Ok(pair) => &s[pair.start()..pair.end()],
        Err(_) => &s[..0],
    }
}
