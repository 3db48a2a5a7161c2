// The rows of one roof: its arrangements, code upward, and after them its local forces, slope by slope.
#![tactic(auto)]

ghost use Rattle.std.specs.Prelude.{true, ◌≡◌, ◌+◌, ◌*◌, ◌≤◌, length};
ghost use Rattle.figures.specs.Kind.{kind_number};
ghost use Rattle.figures.specs.RoofRules.{kind_of, drifts_of};
ghost use Rattle.roof_rows.specs.Rows.{code_rows, arrangement_rows, roof_rows, row_count};
ghost use Rattle.standard.specs.Arrangements.{exists};
ghost use Rattle.text.specs.Written.{Wrote};

use codes::RoofCodes;
use figures::AcceptedFigures;
use force_rows::list_forces;
use segment_rows::{Heading, list_segments};
use segments::Arrangement;
use text::Writer;
use written_segments::write;

// The numbers of the largest arrangement: 32 segments, four numbers each. All are lent, since the terminals have no heap.
pub const NUMBERS: usize = 128;

// Writes the rows of an arrangement that exists.
fn list_arrangement(
    out: &mut Writer,
    arrangement: Arrangement,
    item: u32,
    numbers: &mut [u32; NUMBERS],
)
    requires found { let f = arrangement.figures.now in exists f.site f.roof arrangement.code ≡ true }
    requires room { let f = arrangement.figures.now in out.old.at + 66 * row_count f.national f.site f.roof arrangement.code ≤ length out.old.bytes.now }
    ensures wrote { let f = arrangement.entry.figures.now in Wrote out.old (code_rows f.national f.site f.roof item arrangement.entry.code) out.new }
    ensures upper_bound { let f = arrangement.entry.figures.now in out.new.at ≤ out.old.at + 66 * row_count f.national f.site f.roof arrangement.entry.code }
{
    write(arrangement, numbers);
    let heading = Heading {
        item,
        code: u32::from(arrangement.code),
    };
    list_segments(out, heading, &numbers[..4 * arrangement.count()]);
}

// Writes the rows of one code, and nothing where the roof, whose codes these are, hasn't it. The roof's codes are found once for all of
// them, so they come beside its figures; a struct of both would be taken apart at once.
fn list_code(
    out: &mut Writer,
    figures: &AcceptedFigures,
    codes: RoofCodes,
    item: u32,
    code: u8,
    numbers: &mut [u32; NUMBERS],
)
    requires codes { let f = figures.now in (kind_number codes.kind ≡ kind_of f.roof.shape) × (codes.situation ≡ f.site.situation) × (codes.drifts ≡ drifts_of f.roof.shape) }
    requires room { let f = figures.now in out.old.at + 66 * row_count f.national f.site f.roof code ≤ length out.old.bytes.now }
    ensures wrote { let f = figures.now in Wrote out.old (code_rows f.national f.site f.roof item code) out.new }
    ensures upper_bound { let f = figures.now in out.new.at ≤ out.old.at + 66 * row_count f.national f.site f.roof code }
{
    if !codes.has(code) {
        return;
    }
    list_arrangement(out, Arrangement::of(figures, code), item, numbers);
}

// Writes the rows of every arrangement of a roof, code upward.
fn list_codes(out: &mut Writer, figures: &AcceptedFigures, item: u32, numbers: &mut [u32; NUMBERS])
    requires { out.old.at + 8448 ≤ length out.old.bytes.now }
    ensures wrote { let f = figures.now in Wrote out.old (arrangement_rows f.national f.site f.roof item) out.new }
    ensures upper_bound { out.new.at ≤ out.old.at + 8448 }
{
    let codes = RoofCodes::of(figures.roof.shape, figures.site.situation);
    for code in codes.first()..=codes.last() {
        list_code(out, figures, codes, item, code, numbers);
    }
}

// Writes the rows of a roof.
pub fn list_roof(
    out: &mut Writer,
    figures: &AcceptedFigures,
    item: u32,
    numbers: &mut [u32; NUMBERS],
)
    requires { out.old.at + 8624 ≤ length out.old.bytes.now }
    ensures wrote { let f = figures.now in Wrote out.old (roof_rows f.national f.site f.roof item) out.new }
    ensures upper_bound { out.new.at ≤ out.old.at + 8624 }
{
    list_codes(out, figures, item, numbers);
    list_forces(out, figures.sited(), item);
}
