// Rows of segments, with the digits of a number held in a word.
#![tactic(auto)]

ghost use Rattle.std.specs.Prelude.{◌+◌, ◌*◌, ◌/◌, ◌≤◌, ◌<◌, ◌++◌, ◌∷◌, [], length};
ghost use Rattle.text.specs.Written.{Wrote};
ghost use Rattle.plain_rows.specs.Rows.{rows_of};
ghost use Rattle.segment_rows.specs.Rows.{slice_rows};

use digit_rows::Rows;
use digits::LONG;
pub use plain_rows::Heading;
use plain_rows::{list_plainly, put_segment};
use text::Writer;

// Writes the rows of a short item and code: all but the last by words, and the last number after number, since words spoil bytes behind the row.
fn list_short(out: &mut Writer, heading: Heading, front: &[[u32; 4]], last: &[u32; 4])
    requires short { (heading.item < 100000000) × (heading.code < 100000000) }
    requires room { out.old.at + 66 * length front.now + 66 ≤ length out.old.bytes.now }
    ensures wrote { Wrote out.old (rows_of heading.item heading.code (front.now ++ (last.now ∷ []))) out.new }
    ensures upper_bound { out.new.at ≤ out.old.at + 66 * length front.now + 66 }
{
    let mut rows = Rows::new(heading);
    for segment in front {
        rows.put(segment, out);
    }
    put_segment(out, heading, last);
}

// Writes a row for each segment of the numbers, four numbers a segment.
pub fn list_segments(out: &mut Writer, heading: Heading, numbers: &[u32])
    requires { out.old.at + 66 * (length numbers.now / 4) ≤ length out.old.bytes.now }
    ensures wrote { Wrote out.old (slice_rows numbers.now heading.item heading.code (length numbers.now / 4)) out.new }
    ensures upper_bound { out.new.at ≤ out.old.at + 66 * (length numbers.now / 4) }
{
    let (segments, _) = numbers.as_chunks::<4>();
    match segments.split_last() {
        Some((last, front)) if heading.item < LONG && heading.code < LONG => {
            list_short(out, heading, front, last);
        }
        _ => list_plainly(out, heading, segments),
    }
}
