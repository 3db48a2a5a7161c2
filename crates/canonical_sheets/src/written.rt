// The count, the pairs and the items of an accepted sheet, written without gaps.
ghost use Rattle.std.specs.Prelude.{◌≡◌, ◌+◌, ◌*◌, ◌≤◌, ◌<◌, length, IfOk};
ghost use Rattle.canonical_sheets.specs.Canonical.{items, pairs_from, pairs_end, together, canonical, canonical_answer, canonical_after};
ghost use Rattle.pairs.specs.Pairs.{answer_means};
ghost use Rattle.text.specs.Written.{Wrote};

use figures::Refusal;
use pair_words::{Pair, join};
use pairs::{Items, Refused};
use sheet::{Caller, Sheet};
use text::Writer;

// The bytes of the count and the pairs, behind which the first item begins.
fn pairs_end(items: Items) -> usize
    ensures { result ≡ pairs_end items.entry.count }
{
    2 + 4 * items.count()
}

// The length of the result.
fn canonical_length(sheet: Sheet) -> usize
    ensures { result ≡ length (canonical sheet.entry.items.sheet.now) }
{
    let mut end = pairs_end(sheet.items);
    for i in 0..sheet.items.count() {
        end += usize::from(sheet.items.pair(i).size);
    }
    end
}

// Writes the pairs of the items, which stand one after the other behind the pairs.
fn put_pairs(out: &mut Writer, sheet: Sheet)
    requires { out.old.at + 4 * sheet.items.count ≤ length out.old.bytes.now }
    ensures { Wrote out.old (pairs_from (pairs_end sheet.entry.items.count) (items sheet.entry.items.sheet.now)) out.new }
{
    let mut offset = pairs_end(sheet.items);
    for i in 0..sheet.items.count() {
        let old = sheet.items.pair(i);
        let pair = Pair {
            offset: offset as u16,
            size: old.size,
        };
        out.put_bytes(&join(pair).to_le_bytes());
        offset += usize::from(old.size);
    }
}

// Writes the items one after the other.
fn put_items(out: &mut Writer, sheet: Sheet)
    requires { out.old.at + length (together (items sheet.items.sheet.now)) ≤ length out.old.bytes.now }
    ensures { Wrote out.old (together (items sheet.entry.items.sheet.now)) out.new }
{
    for i in 0..sheet.items.count() {
        out.put_bytes(sheet.items.part(i));
    }
}

// Writes an accepted sheet in the one way.
pub(crate) fn put_sheet(out: &mut Writer, sheet: Sheet)
    requires { out.old.at + length (canonical sheet.items.sheet.now) ≤ length out.old.bytes.now }
    ensures { Wrote out.old (canonical sheet.entry.items.sheet.now) out.new }
{
    let count = sheet.items.count() as u16;
    out.put_bytes(&count.to_le_bytes());
    put_pairs(out, sheet);
    put_items(out, sheet);
}

// Writes any bytes as a sheet, read with any numbers as a store, in the one way at the front of the lent bytes, and answers the length of
// the result; or the first broken rule, and 11 where the lent bytes are fewer, which alters nothing.
pub fn write(store: &[u32], sheet: &[u8], out: &mut [u8]) -> Result<usize, Refused>
    ensures value { answer_means result ≡ canonical_answer store.now sheet.now (length out.old) }
    ensures written { out.new ≡ canonical_after (answer_means result) sheet.now out.old }
    ensures few { IfOk result (λ n. n ≤ 16384) }
{
    let sheet = Sheet::read(store, sheet, Caller::Terminal)?;
    let length = canonical_length(sheet);
    let short = out.len() < length;
    if short {
        return Err(Refused::from(Refusal::Slice));
    }
    put_sheet(&mut Writer::new(out), sheet);
    Ok(length)
}
