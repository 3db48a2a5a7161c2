// The verdict on a sheet's count and pairs.
ghost use Rattle.std.specs.Prelude.{◌≡◌, ◌+◌, ◌*◌, ◌≤◌, length};
ghost use Rattle.pairs.specs.Pairs.{count, offset, size, pair_number, in_turn, pairs_verdict, part, PartIn, verdict_means};

use crate::turns::Refused;
use ceilings::Ceiling;
use figures::Refusal;
use little_endian::u16_at;
use pair_words::{Pair, split, word};

// The pair at an index, where its four bytes are in the sheet. Every pair is read here.
pub fn pair_at(s: &[u8], i: usize) -> Pair
    requires { 2 + 4 * i + 4 ≤ length s.now }
    ensures { (result.offset ≡ offset s.now i) × (result.size ≡ size s.now i) }
{
    let at = 2 + 4 * i;
    split(word(s[at], s[at + 1], s[at + 2], s[at + 3]))
}

// The item that a pair lies at, where both are within the sheet.
pub fn part_at(s: &[u8], i: usize) -> &[u8]
    requires { PartIn s.now i }
    ensures { result.now ≡ part s.now i }
{
    let pair = pair_at(s, i);
    &s[pair.start()..pair.end()]
}

// The n pairs in turn: one is refused whose item begins before the end of the pairs or of the item before it, or runs past the sheet. That
// end is carried on, so that each pair is read once.
fn check_pairs(s: &[u8], n: usize) -> Result<usize, Refused>
    requires { (n ≡ count s.now) × (2 + 4 * n ≤ length s.now) }
    ensures { verdict_means result ≡ in_turn (pair_number s.now) n 0 n }
{
    let mut earliest = 2 + 4 * n;
    for i in 0..n {
        let pair = pair_at(s, i);
        let start = pair.start();
        let end = pair.end();
        if start < earliest || s.len() < end {
            return Err(Refused {
                refusal: Refusal::Pair,
                item: i,
            });
        }
        earliest = end;
    }
    Ok(n)
}

// The verdict on a sheet's count and pairs, under a ceiling.
#[tactic(auto, unfolding(crate::specs::Pairs::pairs_verdict))]
pub fn read_pairs(s: &[u8], ceiling: Ceiling) -> Result<usize, Refused>
    ensures { verdict_means result ≡ pairs_verdict ceiling s.now }
{
    if s.len() < 2 {
        return Err(Refused::from(Refusal::SheetLimits));
    }
    let count = u16_at(s, 0);
    if !ceiling.fits(s.len(), count) {
        return Err(Refused::from(Refusal::SheetLimits));
    }
    let n = usize::from(count);
    check_pairs(s, n)
}
