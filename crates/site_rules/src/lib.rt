// The value rules on a site: refusals 6 and 7.
#![tactic(auto)]

ghost use Rattle.std.specs.Prelude.{◌≡◌};
ghost use Rattle.figures.specs.Refusal.{number_in};
ghost use Rattle.figures.specs.SiteRules.{ground_field, other_fields, site_fields, altitude_refusal, site_refusal};

use figures::{Refusal, Site};

// Whether a ground load lies in its range.
pub fn ground_field(sk: u64) -> bool
    ensures { result ≡ ground_field sk }
{
    (100..=25_000).contains(&sk)
}

// Whether every field but the ground load and the altitude lies in its range: by the four fields, since a site and an item's data have
// them alike.
pub fn other_fields(ce: u16, ct: u16, cesl: u16, situation: u8) -> bool
    ensures { result ≡ other_fields ce ct cesl situation }
{
    (80..=120).contains(&ce)
        && (1..=100).contains(&ct)
        && (100..=300).contains(&cesl)
        && situation <= 3
}

// Whether every field but the altitude lies in its range.
fn site_fields(site: Site) -> bool
    ensures { result ≡ site_fields site }
{
    ground_field(u64::from(site.sk)) && other_fields(site.ce, site.ct, site.cesl, site.situation)
}

// Refuses an altitude above the map's.
pub fn check_altitude(altitude: u16) -> Result<(), Refusal>
    ensures { number_in result ≡ altitude_refusal altitude }
{
    if 1_500 < altitude {
        return Err(Refusal::Altitude);
    }
    Ok(())
}

// The first value rule that a site breaks.
#[tactic(auto, unfolding(figures::specs::SiteRules::site_refusal, figures::specs::Rules::first_of))]
pub fn check_site(site: Site) -> Result<(), Refusal>
    ensures { number_in result ≡ site_refusal site }
{
    if !site_fields(site) {
        return Err(Refusal::SiteField);
    }
    check_altitude(site.altitude)
}
