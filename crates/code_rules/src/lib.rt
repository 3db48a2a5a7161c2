// The factor on an arrangement's loads, and whether a roof has the arrangement.
#![tactic(auto)]

ghost use Rattle.std.specs.Prelude.{◌≡◌, ◌≤◌};
ghost use Rattle.figures.specs.Bounds.{SiteIn};
ghost use Rattle.figures.specs.RoofRules.{kind_of, drifts_of};
ghost use Rattle.standard.specs.Arrangements.{exceptional_of, factor_of};
ghost use Rattle.standard.specs.Codes.{exists_in};

use codes::{RoofCodes, is_accidental};
use figures::{Shape, Site};

// Cesl, or 1 for a persistent code, in hundredths. The site's bounds are asked for, since accepted figures and a sited shape both keep them.
fn exceptional_factor(site: Site, code: u8) -> u16
    requires { SiteIn site }
    ensures { (result ≡ exceptional_of site code) × (result ≤ 300) }
{
    if is_accidental(code) { site.cesl } else { 100 }
}

// Ce × Ct × Cesl in millionths.
#[tactic(auto, unfolding(standard::specs::Arrangements::factor_of))]
pub fn factor(site: Site, code: u8) -> u64
    requires { SiteIn site }
    ensures { (result ≡ factor_of site code) × (result ≤ 3600000) }
{
    u64::from(site.ce) * u64::from(site.ct) * u64::from(exceptional_factor(site, code))
}

// Whether a roof has the arrangement in the site's situation. Where it hasn't, the refusal is 13.
pub fn has_arrangement(site: Site, shape: Shape, code: u8) -> bool
    ensures { result ≡ exists_in (kind_of shape) site.situation (drifts_of shape) code }
{
    RoofCodes::of(shape, site.situation).has(code)
}
