// The two lines of words.
ghost use Rattle.std.specs.Prelude.{◌+◌, ◌≤◌, ◌<◌, length};
ghost use Rattle.plain_rows.specs.Words.{header, refused_row};
ghost use Rattle.text.specs.Written.{Wrote};

use text::Writer;

// Writes the header.
pub fn put_header(out: &mut Writer)
    requires { out.old.at + 29 ≤ length out.old.bytes.now }
    ensures { Wrote out.old header out.new }
{
    out.put_bytes(b"ITEM ARR START END LOAD LOAD\n");
}

// Writes the line of a refused sheet.
pub fn put_refused(out: &mut Writer, number: u8, item: usize)
    requires { (out.old.at + 30 ≤ length out.old.bytes.now) × (item < 4294967296) }
    ensures { Wrote out.old (refused_row number item) out.new }
{
    let number = u32::from(number);
    let item = item as u32;
    out.put_bytes(b"REFUSED ");
    out.put_row(&[number, item]);
}
