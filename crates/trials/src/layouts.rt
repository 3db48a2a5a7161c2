// What the library writes of one sheet in the one way, held against the text that is stored with it.
ghost use Rattle.std.specs.Prelude.{◌≡◌, ◌↔◌, IsTrue};
ghost use Rattle.canonical_sheets.specs.Canonical.{archived};

use crate::records::{Damaged, Record, Records, StoredFile};
use canonical_sheets::{SHEET_BYTES, STORE_NUMBERS, archive};
use std::io;

// Whether the sheet in the one way, or its line where it is refused, is the text, byte for byte.
fn agrees(store: &[u32], stored: Record<'_>, room: &mut [u8; SHEET_BYTES]) -> bool
    ensures { IsTrue result ↔ (archived store.now stored.entry.sheet.now ≡ stored.entry.text.now) }
{
    let n = archive(store, stored.sheet, room);
    &room[..n] == stored.text
}

// Compares the records of a file in turn, with an empty store, and writes what they came to.
pub fn compare(rt: &impl Print, file: StoredFile<'_>) -> io::Result<()> {
    let store = [0; STORE_NUMBERS];
    let mut room = [0; SHEET_BYTES];
    let mut layouts = 0u64;
    let mut agree = 0u64;
    for (number, record) in Records::new(file).enumerate() {
        match record {
            Ok(record) => {
                let as_stored = agrees(&store, record, &mut room);
                if !as_stored {
                    println!(rt; "DIFFERENT LAYOUT {number}")?;
                }
                layouts = layouts.saturating_add(1);
                agree = agree.saturating_add(u64::from(as_stored));
            }
            Err(Damaged) => println!(rt; "DAMAGED LAYOUT {number}")?,
        }
    }
    println!(rt; "LAYOUTS {layouts} AGREE {agree}")
}
