// Calls for the terminals' firmware and the quote desk, in C's terms. Each takes any bytes as a sheet, any numbers as a store of national
// sets, and any numbers besides; a slice is a pointer and its length.
#![tactic(auto)]

ghost use Rattle.std.specs.Prelude.{◌≡◌, ◌≤◌, length};
ghost use Rattle.added_sets.specs.Adding.{add_answer, store_after};
ghost use Rattle.canonical_sheets.specs.Canonical.{canonical_answer, canonical_after};
ghost use Rattle.listing.specs.Listing.{listed, bytes_after};
ghost use Rattle.figures.specs.Refusal.{numbered};
ghost use Rattle.sheet_figures.specs.Find.{found};
ghost use Rattle.ceilings.specs.Ceilings.{terminals, desk};
ghost use Rattle.sheet.specs.Sheet.{sheet_verdict};
ghost use Rattle.answer_codes.specs.Codes.{answer_code, alone_code};
ghost use Rattle.map_sites.specs.Sites.{ground_answer};
ghost use Rattle.item_answers.specs.Calls.{make_code, slice_after, segment_count_code, segment_code, segment_after, load_code, overhang_code, guard_code};

use added_sets::add_set;
use answer_codes::{alone, count, force, number};
use item_answers::{guard_force_at, load_at, make_at, overhang_at, segment_at, segment_count_at};
use map_sites::ground_load;
use sheet::{Caller, verdict};
use sheet_figures::find;

// The count of a sheet's items, or a refusal.
#[unsafe(no_mangle)]
pub extern "C" fn snow_verdict(store: &[u32], sheet: &[u8]) -> u32
    ensures { result ≡ answer_code (sheet_verdict store.now terminals sheet.now) }
{
    count(verdict(store, sheet, Caller::Terminal))
}

// The same for the quote desk, whose ceiling is lower: the count of a sheet's items, or a refusal.
#[unsafe(no_mangle)]
pub extern "C" fn snow_desk_verdict(store: &[u32], sheet: &[u8]) -> u32
    ensures { result ≡ answer_code (sheet_verdict store.now desk sheet.now) }
{
    count(verdict(store, sheet, Caller::Desk))
}

// The count of segments of an item's arrangement, which are at the front of the slice; or a refusal, which alters nothing.
#[unsafe(no_mangle)]
pub extern "C" fn snow_make(
    store: &[u32],
    sheet: &[u8],
    item: usize,
    code: u8,
    out: &mut [u32],
) -> u32
    ensures value { result ≡ make_code (found store.now sheet.now item) item code (length out.old) }
    ensures out_after { out.new ≡ slice_after (found store.now sheet.now item) item code out.old }
{
    count(make_at(find(store, sheet, item), item, code, out))
}

// The count of segments of an item's arrangement, or a refusal.
#[unsafe(no_mangle)]
pub extern "C" fn snow_segment_count(store: &[u32], sheet: &[u8], item: usize, code: u8) -> u32
    ensures { result ≡ segment_count_code (found store.now sheet.now item) item code }
{
    count(segment_count_at(find(store, sheet, item), item, code))
}

// 4, the numbers of one segment of an item's arrangement, which are at the front of the slice; or a refusal, which alters nothing.
#[unsafe(no_mangle)]
pub extern "C" fn snow_segment(
    store: &[u32],
    sheet: &[u8],
    item: usize,
    code: u8,
    index: usize,
    out: &mut [u32],
) -> u32
    ensures value { result ≡ segment_code (found store.now sheet.now item) item code index (length out.old) }
    ensures out_after { out.new ≡ segment_after (found store.now sheet.now item) item code index out.old }
{
    count(segment_at(find(store, sheet, item), item, code, index, out))
}

// The load at a station of an item's arrangement, or a refusal.
#[unsafe(no_mangle)]
pub extern "C" fn snow_load(store: &[u32], sheet: &[u8], item: usize, code: u8, station: u32) -> u32
    ensures { result ≡ load_code (found store.now sheet.now item) item code station }
{
    number(load_at(find(store, sheet, item), item, code, station))
}

// The overhang at a slope of an item, none, or a refusal.
#[unsafe(no_mangle)]
pub extern "C" fn snow_overhang(store: &[u32], sheet: &[u8], item: usize, slope: u8) -> u32
    ensures { result ≡ overhang_code (found store.now sheet.now item) item slope }
{
    force(overhang_at(find(store, sheet, item), item, slope))
}

// The force at the guard of a slope of an item, none, or a refusal.
#[unsafe(no_mangle)]
pub extern "C" fn snow_guard_force(store: &[u32], sheet: &[u8], item: usize, slope: u8) -> u32
    ensures { result ≡ guard_code (found store.now sheet.now item) item slope }
{
    force(guard_force_at(find(store, sheet, item), item, slope))
}

// The bytes of a sheet's listing, which is at the front of the lent bytes; 0, and nothing is written, where they are
// too few.
#[unsafe(no_mangle)]
pub extern "C" fn snow_list(store: &[u32], sheet: &[u8], out: &mut [u8]) -> usize
    ensures value { result ≡ listed store.now sheet.now (length out.old) }
    ensures out_after { out.new ≡ bytes_after store.now sheet.now out.old }
    ensures upper_bound { result ≤ length out.new }
{
    let mut numbers = [0; listing::NUMBERS];
    listing::list(store, sheet, &mut numbers, out)
}

// The length of a sheet written in the one way, which is at the front of the lent bytes; or a refusal, which alters nothing.
#[unsafe(no_mangle)]
pub extern "C" fn snow_canonical(store: &[u32], sheet: &[u8], out: &mut [u8]) -> u32
    ensures value { result ≡ answer_code (canonical_answer store.now sheet.now (length out.old)) }
    ensures out_after { out.new ≡ canonical_after (canonical_answer store.now sheet.now (length out.old)) sheet.now out.old }
{
    count(canonical_sheets::write(store, sheet, out))
}

// The ground load of a region, a zone and an altitude by the map, or a refusal.
#[unsafe(no_mangle)]
pub extern "C" fn snow_ground_load(region: u8, zone: u8, altitude: u16) -> u32
    ensures { result ≡ alone_code (ground_answer region zone altitude) }
{
    alone(ground_load(region, zone, altitude))
}

// The count of a store's sets with one more, given by its six numbers; or a refusal, which alters nothing.
#[unsafe(no_mangle)]
pub extern "C" fn snow_add_set(store: &mut [u32], set: &[u32]) -> u32
    ensures value { result ≡ alone_code (numbered (add_answer store.old set.now)) }
    ensures store_after { store.new ≡ store_after store.old set.now }
{
    alone(add_set(store, set))
}
