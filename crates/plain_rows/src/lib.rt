// Rows of segments, number after number, and the two lines of words.
#![tactic(auto)]

mod words;

ghost use Rattle.std.specs.Prelude.{◌+◌, ◌*◌, ◌≤◌, ◌∷◌, length};
ghost use Rattle.text.specs.Text.{row};
ghost use Rattle.text.specs.Written.{Wrote};
ghost use Rattle.plain_rows.specs.Rows.{rows_of};

use text::Writer;
pub use words::{put_header, put_refused};

// What each row of an arrangement begins with.
#[derive(Clone, Copy)]
pub struct Heading {
    pub item: u32,
    pub code: u32,
}

// Writes the row of a segment: start, end, and the loads there.
pub fn put_segment(out: &mut Writer, heading: Heading, segment: &[u32; 4])
    requires { out.old.at + 66 ≤ length out.old.bytes.now }
    ensures wrote { Wrote out.old (row (heading.item ∷ heading.code ∷ segment.now)) out.new }
    ensures upper_bound { out.new.at ≤ out.old.at + 66 }
{
    let [start, end, first, second] = *segment;
    out.put_row(&[heading.item, heading.code, start, end, first, second]);
}

// Writes a row for each segment.
pub fn list_plainly(out: &mut Writer, heading: Heading, segments: &[[u32; 4]])
    requires { out.old.at + 66 * length segments.now ≤ length out.old.bytes.now }
    ensures wrote { Wrote out.old (rows_of heading.item heading.code segments.now) out.new }
    ensures upper_bound { out.new.at ≤ out.old.at + 66 * length segments.now }
{
    for segment in segments {
        put_segment(out, heading, segment);
    }
}
