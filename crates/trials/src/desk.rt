// The quote desk's reading of a sheet with a store, beside a terminal's: the verdict, where each item lies, and each item.
use figures::Refusal;
use sheet::{Caller, Refused, item, locate, verdict};

// The indexes that are asked for: those of the fullest sheet and two more.
const INDEXES: usize = 34;

// The answer to a sheet that passes the ceiling: 1, item 0.
const PASSED: Refused = Refused {
    refusal: Refusal::SheetLimits,
    item: 0,
};

// Whether the sheet is inside the desk's ceiling: at most 8 items and 2,048 bytes.
pub fn is_inside(sheet: &[u8]) -> bool {
    match sheet.first_chunk() {
        Some(count) => u16::from_le_bytes(*count) <= 8 && sheet.len() <= 2_048,
        None => true,
    }
}

// Whether an index gives the desk what it gives a terminal.
fn has_same_item(store: &[u32], sheet: &[u8], index: usize) -> bool {
    locate(store, sheet, Caller::Desk, index) == locate(store, sheet, Caller::Terminal, index)
        && item(store, sheet, Caller::Desk, index) == item(store, sheet, Caller::Terminal, index)
}

// Whether an index gives the desk nothing but 1.
fn has_no_item(store: &[u32], sheet: &[u8], index: usize) -> bool {
    locate(store, sheet, Caller::Desk, index) == Err(PASSED)
        && item(store, sheet, Caller::Desk, index).is_empty()
}

// Whether the desk reads the sheet as a terminal does where it is inside the ceiling, and otherwise refuses it by 1.
pub fn agrees(store: &[u32], sheet: &[u8]) -> bool {
    let desk = verdict(store, sheet, Caller::Desk);
    if is_inside(sheet) {
        desk == verdict(store, sheet, Caller::Terminal)
            && (0..INDEXES).all(|index| has_same_item(store, sheet, index))
    } else {
        desk == Err(PASSED) && (0..INDEXES).all(|index| has_no_item(store, sheet, index))
    }
}
