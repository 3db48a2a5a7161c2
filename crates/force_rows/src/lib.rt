// The rows of a roof's local forces, slope by slope.
#![tactic(auto)]

ghost use Rattle.std.specs.Prelude.{◌+◌, ◌≤◌, length};
ghost use Rattle.force_rows.specs.Rows.{force_row, slope_rows, force_rows};
ghost use Rattle.local_forces.specs.Answers.{force_or_none};
ghost use Rattle.text.specs.Written.{Wrote};

use codes::has_forces;
use figures::SitedShape;
use local_forces::{guard_force_at, overhang_at};
use text::Writer;

// The documents' numbers in front of a row of a force.
const OVERHANG: u32 = 21;

const GUARD_FORCE: u32 = 22;

// Writes the row of a force, and nothing where there is none.
#[tactic(auto, using(text::proofs::Writing::none))]
fn put_force(out: &mut Writer, item: u32, code: u32, slope: u8, force: Option<u32>)
    requires { out.old.at + 44 ≤ length out.old.bytes.now }
    ensures wrote { Wrote out.old (force_row item code slope (force_or_none force)) out.new }
    ensures upper_bound { out.new.at ≤ out.old.at + 44 }
{
    let Some(newtons) = force else {
        return;
    };
    out.put_row(&[item, code, u32::from(slope), newtons]);
}

// Writes the rows of the forces at one slope.
#[tactic(auto, using(text::proofs::Writing::room))]
fn list_slope(out: &mut Writer, sited: SitedShape, item: u32, slope: u8)
    requires { out.old.at + 88 ≤ length out.old.bytes.now }
    ensures wrote { Wrote out.old (slope_rows sited.site sited.shape item slope) out.new }
    ensures upper_bound { out.new.at ≤ out.old.at + 88 }
{
    put_force(out, item, OVERHANG, slope, overhang_at(sited, slope));
    put_force(out, item, GUARD_FORCE, slope, guard_force_at(sited, slope));
}

// Writes the rows of the forces at both slopes, and nothing for a kind that has none.
#[tactic(auto, using(text::proofs::Writing::room))]
pub fn list_forces(out: &mut Writer, sited: SitedShape, item: u32)
    requires { out.old.at + 176 ≤ length out.old.bytes.now }
    ensures wrote { Wrote out.old (force_rows sited.site sited.shape item) out.new }
    ensures upper_bound { out.new.at ≤ out.old.at + 176 }
{
    if !has_forces(u8::from(sited.shape.kind())) {
        return;
    }
    list_slope(out, sited, item, 1);
    list_slope(out, sited, item, 2);
}
