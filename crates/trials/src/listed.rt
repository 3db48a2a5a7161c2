// The library's listing of one sheet, held against the text that is stored with it.
ghost use Rattle.std.specs.Prelude.{◌≡◌, ◌↔◌, ◌≤◌, IsTrue, length, replicate};
ghost use Rattle.listing.specs.Listing.{listing, list_room};

use crate::desk;
use crate::records::Record;
use sheet::{Caller, verdict};

// Whether the library refuses the sheet, and whether its listing of it is the stored text; whether the sheet is inside the
// quote desk's ceiling, and whether the desk reads it as it must.
#[derive(Clone, Copy, Debug)]
pub struct Outcome {
    pub refused: bool,
    pub agrees: bool,
    pub inside: bool,
    pub desk_agrees: bool,
}

impl Outcome {
    // Whether the listing and the desk's reading are as they must be.
    pub fn is_as_stored(self) -> bool {
        self.agrees && self.desk_agrees
    }
}

// Whether the listing of the sheet is the text, byte for byte. The room comes from the heap, so its least length is asked for.
fn agrees(store: &[u32], stored: Record<'_>, room: &mut [u8]) -> bool
    requires { list_room ≤ length room.old }
    ensures { IsTrue result ↔ (listing store.now stored.entry.sheet.now ≡ stored.entry.text.now) }
{
    let mut numbers = [0; listing::NUMBERS];
    let n = listing::list(store, stored.sheet, &mut numbers, room);
    &room[..n] == stored.text
}

// How the sheet compares with its stored text, which is the listing with an empty store.
pub fn compare(stored: Record<'_>, room: &mut [u8]) -> Outcome
    requires { list_room ≤ length room.old }
    ensures { IsTrue result.agrees ↔ (listing (replicate 193 0) stored.entry.sheet.now ≡ stored.entry.text.now) }
{
    let store = [0; listing::STORE_NUMBERS];
    let sheet = stored.sheet;
    Outcome {
        refused: verdict(&store, sheet, Caller::Terminal).is_err(),
        agrees: agrees(&store, stored, room),
        inside: desk::is_inside(sheet),
        desk_agrees: desk::agrees(&store, sheet),
    }
}
