// The force of sliding snow at a guard (6.4).
ghost use Rattle.std.specs.Prelude.{◌≡◌, ◌≤◌};
ghost use Rattle.figures.specs.Bounds.{SlopeIn};
ghost use Rattle.figures.specs.Slopes.{slope_at};
ghost use Rattle.local_forces.specs.Answers.{force_or_none, force_means};
ghost use Rattle.standard.specs.Forces.{guard_force, guard_at, guard_answer, guard_distance};

use figures::{Refusal, Roof, Site, SitedShape, Slope};
use roof_slopes::slope_of;
use sines::sine;
use slope_loads::whole_load;

// 6.4 (6.5): S × width/1,000 × sine, rounded up; the width is in mm, the sine in millionths.
#[tactic(auto, using(standard::proofs::Forces::guard_is, standard::proofs::Sine::sine_most, crate::proofs::Products::product_fits, crate::proofs::Products::force_fits))]
fn sliding_force(s: u64, slope: Slope) -> u64
    requires { (s ≤ 24000) × SlopeIn slope }
    ensures { (result ≡ guard_force s slope.width slope.pitch) × (result ≤ 2400000) }
{
    let billionths = s * u64::from(slope.width) * u64::from(sine(slope.pitch));
    rounding::ceil_div(billionths, 1_000_000_000)
}

// The force at the guard of a slope of an accepted shape.
#[tactic(auto, using(figures::proofs::Accepted::site_in, figures::proofs::Sides::one_in), unfolding(standard::specs::Forces::guard_at))]
pub fn guard_force_at(sited: SitedShape, slope: u8) -> Option<u32>
    ensures { force_or_none result ≡ guard_at sited.site (slope_at sited.shape slope) }
{
    let side = slope_of(sited.shape, slope)?;
    if side.guard != 1 {
        return None;
    }
    let force = sliding_force(whole_load(sited.site, side), side.slope);
    Some(force as u32)
}

// The force at the guard of a slope.
#[tactic(auto, unfolding(standard::specs::Forces::guard_answer))]
pub fn guard_force(store: &[u32], site: Site, roof: Roof, slope: u8) -> Result<Option<u32>, Refusal>
    ensures answer { force_means result ≡ guard_answer store.now site roof slope }
    ensures distance { guard_distance (force_means result) site (slope_at roof.shape slope) }
{
    let figures = figure_rules::accept(store, site, roof)?;
    Ok(guard_force_at(figures.sited(), slope))
}
