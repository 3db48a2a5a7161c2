// The overhang at an eave (6.3).
ghost use Rattle.std.specs.Prelude.{◌≡◌, ◌≤◌};
ghost use Rattle.figures.specs.Slopes.{slope_at};
ghost use Rattle.local_forces.specs.Answers.{force_or_none, force_means};
ghost use Rattle.standard.specs.Forces.{larger_unrounded, overhang_force, overhang_at, overhang_answer, overhang_distance};

use figures::{Refusal, Roof, Site, SitedShape};
use roof_slopes::slope_of;
use slope_loads::larger_load;

// Overhangs count above this altitude, in m.
const OVERHANGS_ABOVE: u16 = 800;

// 6.3 (6.4) with γ = 3 kN/m³: S³/3,000,000, limited by 3S and rounded up.
#[tactic(auto, using(standard::proofs::Forces::overhang_is, crate::proofs::Products::cube_fits))]
fn overhang_of(s: u64) -> u64
    requires { s ≤ 24000 }
    ensures { (result ≡ overhang_force s) × (result ≤ 72000) }
{
    let limit = 3 * s;
    let force = rounding::ceil_div(s * s * s, 3_000_000);
    limit.min(force)
}

// The overhang at the eave of a slope of an accepted shape. Either eave of a pitched roof has that of the larger S.
#[tactic(auto, unfolding(standard::specs::Forces::overhang_at))]
pub fn overhang_at(sited: SitedShape, slope: u8) -> Option<u32>
    ensures { force_or_none result ≡ overhang_at sited.site sited.shape slope }
{
    let has_eave = slope_of(sited.shape, slope).is_some();
    if has_eave && sited.site.altitude > OVERHANGS_ABOVE {
        return Some(overhang_of(larger_load(sited)) as u32);
    }
    None
}

// The overhang at the eave of a slope. Apart from `guard_force`, which makes another call under another contract.
#[tactic(auto, unfolding(standard::specs::Forces::overhang_answer))]
pub fn overhang(store: &[u32], site: Site, roof: Roof, slope: u8) -> Result<Option<u32>, Refusal>
    ensures answer { force_means result ≡ overhang_answer store.now site roof slope }
    ensures distance { overhang_distance (force_means result) (larger_unrounded site roof.shape) (slope_at roof.shape slope) }
{
    let figures = figure_rules::accept(store, site, roof)?;
    Ok(overhang_at(figures.sited(), slope))
}
