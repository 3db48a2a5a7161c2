// What the program for the archive writes.
ghost use Rattle.std.specs.Prelude.{◌≡◌, ◌+◌, ◌≤◌, ◌++◌, length, drop};
ghost use Rattle.canonical_sheets.specs.Canonical.{archived};
ghost use Rattle.text.specs.Written.{Wrote};

use crate::written::put_sheet;
use ceilings::SHEET_BYTES;
use plain_rows::put_refused;
use sheet::{Caller, Sheet};
use text::Writer;

// Writes any bytes as a sheet in the one way, or the line of a refused sheet.
fn put_archived(store: &[u32], sheet: &[u8], out: &mut Writer)
    requires { out.old.at + 16384 ≤ length out.old.bytes.now }
    ensures { Wrote out.old (archived store.now sheet.now) out.new }
{
    match Sheet::read(store, sheet, Caller::Terminal) {
        Ok(sheet) => put_sheet(out, sheet),
        Err(refused) => put_refused(out, u8::from(refused.refusal), refused.item),
    }
}

// Writes any bytes as a sheet, read with any numbers as a store, in the one way at the front of the lent bytes, or the line of a refused
// sheet, and answers how many bytes that has. No result has more bytes than a sheet may have.
pub fn archive(store: &[u32], sheet: &[u8], out: &mut [u8; SHEET_BYTES]) -> usize
    ensures value { result ≡ length (archived store.now sheet.now) }
    ensures written { out.new ≡ archived store.now sheet.now ++ drop result out.old }
{
    let mut writer = Writer::new(out);
    put_archived(store, sheet, &mut writer);
    writer.at
}
