// The listing of a sheet: its text, written into bytes that the caller lends.
#![tactic(auto)]

ghost use Rattle.std.specs.Prelude.{◌≡◌, ◌+◌, ◌≤◌, length};
ghost use Rattle.listing.specs.Listing.{listing, list_room, listed, bytes_after, Free};
ghost use Rattle.text.specs.Written.{Wrote};

pub use national_sets::STORE_NUMBERS;
use plain_rows::{put_header, put_refused};
use sheet::{Caller, Sheet};
pub use sheet_rows::NUMBERS;
use sheet_rows::list_roofs;
use text::Writer;

// Room for the listing of any sheet, in bytes.
pub const LIST_ROOM: usize = 267_373;

// Writes the listing of any bytes as a sheet.
fn list_any(store: &[u32], sheet: &[u8], numbers: &mut [u32; NUMBERS], out: &mut Writer)
    requires { out.old.at + list_room ≤ length out.old.bytes.now }
    ensures { Wrote out.old (listing store.now sheet.now) out.new }
{
    match Sheet::read(store, sheet, Caller::Terminal) {
        Ok(sheet) => {
            put_header(out);
            list_roofs(out, sheet, numbers);
        }
        Err(refused) => put_refused(out, u8::from(refused.refusal), refused.item),
    }
}

// Writes the listing of any bytes as a sheet, read with any numbers as a store, at the front of the lent bytes, and answers how many
// bytes it has. Where there are fewer than LIST_ROOM none is written, so 0 is answered, which is also C's answer. The numbers are lent
// to the maker for each arrangement; what they hold afterwards is free.
pub fn list(store: &[u32], sheet: &[u8], numbers: &mut [u32; NUMBERS], out: &mut [u8]) -> usize
    ensures answer { result ≡ listed store.now sheet.now (length out.old) }
    ensures written { out.new ≡ bytes_after store.now sheet.now out.old }
    ensures within { result ≤ length out.new }
    ensures free { Free numbers.new }
{
    let short = out.len() < LIST_ROOM;
    if short {
        return 0;
    }
    let mut writer = Writer::new(out);
    list_any(store, sheet, numbers, &mut writer);
    writer.at
}
