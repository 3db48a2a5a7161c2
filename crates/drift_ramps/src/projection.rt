// Kind 7, a projection on a flat roof (6.2).
ghost use Rattle.std.specs.Prelude.{◌≡◌, ◌≤◌, ◌<◌};
ghost use Rattle.figures.specs.Bounds.{Within, ProjectionIn};
ghost use Rattle.ramps.specs.Ramps.{ramp_of};
ghost use Rattle.standard.specs.Projection.{projection_length, projection_load, projection_row, projection, projection_count};
ghost use Rattle.standard.specs.Stretch.{eight_tenths};

use crate::cylindrical::row_index;
use figures::ProjectionRoof;
use loads::Ground;
use ramps::Ramp;

// The drift length.
fn projection_length(h: u32) -> u64
    requires { h ≤ 30000 }
    ensures { (result ≡ projection_length h) × Within 1000 30000 result }
{
    loads::drift_length(5_000, 15_000, h)
}

// The stretch at an index of the full row: even, the ramp up, the ramp down, even. A ramp is cut where the roof ends inside it.
#[tactic(auto, using(standard::proofs::Projection::row_last, ramps::proofs::Stretches::stretches), unfolding(standard::specs::Projection::projection_row))]
fn row_ramp(roof: ProjectionRoof, ls: u64, ground: Ground, j: usize) -> Ramp
    requires { ProjectionIn roof × (ls ≡ projection_length roof.h) × Within 1000 30000 ls × (j ≡ 0 → ls < roof.left) × (2 < j → ls < roof.right) }
    ensures { result ≡ ramp_of (projection_row ls (projection_load ground.factor ground.sk roof.h) (eight_tenths ground.factor ground.sk) roof.left roof.right j) }
{
    let left = u64::from(roof.left);
    let right = u64::from(roof.right);
    let rest = ground.eight_tenths_load();
    match j {
        0 => Ramp::even(4 * (left - ls), rest),
        1 => Ramp {
            extent: 4 * left.min(ls),
            skip: 4 * ls.saturating_sub(left),
            full: 4 * ls,
            from: rest,
            to: ground.projection_load(roof.h),
        },
        2 => Ramp {
            extent: 4 * right.min(ls),
            skip: 0,
            full: 4 * ls,
            from: ground.projection_load(roof.h),
            to: rest,
        },
        _ => Ramp::even(4 * (right - ls), rest),
    }
}

// The stretch at an index.
#[tactic(auto, using(standard::proofs::Projection::projection_row_lem), unfolding(standard::specs::Projection::projection))]
pub fn projection_ramp(roof: ProjectionRoof, ground: Ground, i: usize) -> Ramp
    requires { ProjectionIn roof × (i < projection_count roof.h roof.left roof.right) }
    ensures { result ≡ ramp_of (projection ground.factor ground.sk roof.h roof.left roof.right i) }
{
    let ls = projection_length(roof.h);
    let j = row_index(ls, u64::from(roof.left), i);
    row_ramp(roof, ls, ground, j)
}

// How many stretches the roof has: the two ramps, and what is left of each width that goes on past its drift.
#[tactic(auto, using(std::proofs::lemmas::Bool::Decides::nat_tests), unfolding(standard::specs::Projection::projection_count))]
pub fn projection_count(roof: ProjectionRoof) -> usize
    requires { roof.h ≤ 30000 }
    ensures { (result ≡ projection_count roof.h roof.left roof.right) × (result ≤ 32) }
{
    let ls = projection_length(roof.h);
    usize::from(ls < u64::from(roof.left)) + 2 + usize::from(ls < u64::from(roof.right))
}
