// The row of a segment from digits that are held in words. Eight bytes are written at a time, and those of them that are no text are
// written over next.
#![tactic(auto)]

ghost use Rattle.std.specs.Prelude.{◌+◌, ◌≤◌, ◌<◌, ◌≡◌, ◌∷◌, length, All};
ghost use Rattle.text.specs.Text.{field, row};
ghost use Rattle.digit_rows.specs.Loosely.{Loose};

use digits::{Digits, LONG};
use plain_rows::{Heading, put_segment};
use text::Writer;

// The item and the code that every row begins with, and the last end and load, which are mostly the next row's start and first load.
#[derive(Clone, Copy)]
pub struct Rows {
    pub item: Digits,
    pub code: Digits,
    pub end: Digits,
    pub load: Digits,
}

// Writes a number and the byte behind it. Up to six bytes behind them are spoiled.
fn put_digits(out: &mut Writer, digits: Digits, behind: u8)
    requires { out.old.at + 9 ≤ length out.old.bytes.now }
    ensures loose { Loose 6 out.old (field digits.number behind) out.new }
    ensures upper_bound { out.new.at ≤ out.old.at + 9 }
{
    let end = out.at + 8;
    out.bytes[out.at..end].copy_from_slice(&digits.word.to_le_bytes());
    out.at += digits.len;
    out.bytes[out.at] = behind;
    out.at += 1;
}

impl Rows {
    // Before the first row the numbers at hand are the item's: any digits do, since they are told by their number.
    pub fn new(heading: Heading) -> Rows
        requires { (heading.item < 100000000) × (heading.code < 100000000) }
        ensures { (result.item.number ≡ heading.item) × (result.code.number ≡ heading.code) }
    {
        let item = Digits::of(heading.item);
        let code = Digits::of(heading.code);
        Rows {
            item,
            code,
            end: item,
            load: item,
        }
    }

    // Writes the row of a segment of short numbers. Start and loads are mostly those of the row before.
    fn put_short(&mut self, segment: &[u32; 4], out: &mut Writer)
        requires short { All (λ number. number < 100000000) segment.now }
        requires room { out.old.at + 66 ≤ length out.old.bytes.now }
        ensures loose { Loose 6 out.old (row (self.old.item.number ∷ self.old.code.number ∷ segment.now)) out.new }
        ensures upper_bound { out.new.at ≤ out.old.at + 66 }
        ensures same { (self.new.item ≡ self.old.item) × (self.new.code ≡ self.old.code) }
    {
        let [start, end, first, second] = *segment;
        let start = self.end.or_of(start);
        self.end = Digits::of(end);
        let first = self.load.or_of(first);
        self.load = first.or_of(second);
        put_digits(out, self.item, b' ');
        put_digits(out, self.code, b' ');
        put_digits(out, start, b' ');
        put_digits(out, self.end, b' ');
        put_digits(out, first, b' ');
        put_digits(out, self.load, b'\n');
    }

    // Writes the row of a segment: start, end, and the loads there. Up to six bytes behind it are spoiled.
    pub fn put(&mut self, segment: &[u32; 4], out: &mut Writer)
        requires { out.old.at + 66 ≤ length out.old.bytes.now }
        ensures loose { Loose 6 out.old (row (self.old.item.number ∷ self.old.code.number ∷ segment.now)) out.new }
        ensures upper_bound { out.new.at ≤ out.old.at + 66 }
        ensures same { (self.new.item ≡ self.old.item) × (self.new.code ≡ self.old.code) }
    {
        if segment.iter().all(|number| *number < LONG) {
            return self.put_short(segment, out);
        }
        let heading = Heading {
            item: self.item.number,
            code: self.code.number,
        };
        put_segment(out, heading, segment);
    }
}
