// The undrifted load S on a slope of kind 2 or 3, and the larger S of a roof.
#![tactic(auto)]

ghost use Rattle.std.specs.Prelude.{◌≡◌, ◌≤◌};
ghost use Rattle.figures.specs.Bounds.{SiteIn};
ghost use Rattle.figures.specs.Slopes.{slope_at};
ghost use Rattle.standard.specs.Forces.{whole_load, whole_at, larger_whole};

use figures::{GuardedSlope, Site, SitedShape};
use loads::Ground;
use roof_slopes::slope_of;
use standard::PARTS;

// The persistent code of the undrifted load, by document 01's number.
const UNDRIFTED: u8 = 1;

// S, the slope's code 1 load in whole N/m². By a site and a slope: it asks no more than their bounds, which accepted figures keep.
#[tactic(auto, using(crate::proofs::Slopes::whole_is, crate::proofs::Slopes::most))]
pub fn whole_load(site: Site, slope: GuardedSlope) -> u64
    requires { SiteIn site × (slope.guard ≤ 1) }
    ensures { (result ≡ whole_load site slope.slope slope.guard) × (result ≤ 24000) }
{
    let ground = Ground {
        factor: code_rules::factor(site, UNDRIFTED),
        sk: u64::from(site.sk),
    };
    rounding::ceil_div(ground.slope_load(slope, false), PARTS)
}

// S of a slope by its number, and 0 where the roof has none of that number: 0 is never the larger.
#[tactic(auto, using(figures::proofs::Accepted::site_in, figures::proofs::Sides::one_in), unfolding(standard::specs::Forces::whole_at))]
fn load_of(sited: SitedShape, number: u8) -> u64
    ensures { (result ≡ whole_at sited.site (slope_at sited.shape number)) × (result ≤ 24000) }
{
    match slope_of(sited.shape, number) {
        Some(slope) => whole_load(sited.site, slope),
        None => 0,
    }
}

// The larger S of a roof's slopes. A monopitch roof has slope 1 alone.
#[tactic(auto, unfolding(standard::specs::Forces::larger_whole))]
pub fn larger_load(sited: SitedShape) -> u64
    ensures { (result ≡ larger_whole sited.site sited.shape) × (result ≤ 24000) }
{
    let left = load_of(sited, 1);
    let right = load_of(sited, 2);
    left.max(right)
}
