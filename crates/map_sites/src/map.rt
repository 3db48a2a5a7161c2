// A place on the map: its ground load, or the first rule that it breaks.
ghost use Rattle.std.specs.Prelude.{◌≡◌, IfOk};
ghost use Rattle.figures.specs.Refusal.{number_in, numbered};
ghost use Rattle.ground_loads.specs.Map.{ground_load};
ghost use Rattle.map_sites.specs.Sites.{map_fields, map_refusal, ground_answer};

use figures::Refusal;
use ground_loads::table_load;
use site_rules::{check_altitude, ground_field};

// Whether the map has the region and the zone.
fn map_fields(region: u8, zone: u8) -> bool
    ensures { result ≡ map_fields region zone }
{
    (1..=8).contains(&region) && (1..=5).contains(&zone)
}

// The ground load of a place on the map that breaks no rule.
pub(crate) fn sk_on_map(region: u8, zone: u8, altitude: u16) -> u32
    requires { map_refusal region zone altitude ≡ 0 }
    ensures { result ≡ ground_load region zone altitude }
{
    table_load(region, zone, altitude) as u32
}

// The ground load of any region, zone and altitude, or the first rule that they break: 7, 14, 15.
#[tactic(auto, using(crate::proofs::Kept::place_in, crate::proofs::Kept::load_most), unfolding(crate::specs::Sites::map_refusal, crate::specs::Sites::ground_answer, figures::specs::Rules::first_of))]
pub fn ground_load(region: u8, zone: u8, altitude: u16) -> Result<u32, Refusal>
    ensures answer { numbered result ≡ ground_answer region zone altitude }
    ensures number { number_in result ≡ map_refusal region zone altitude }
    ensures load { IfOk result (λ load. load ≡ ground_load region zone altitude) }
{
    check_altitude(altitude)?;
    if !map_fields(region, zone) {
        return Err(Refusal::RegionOrZone);
    }
    let load = table_load(region, zone, altitude);
    if !ground_field(load) {
        return Err(Refusal::MapLoad);
    }
    Ok(load as u32)
}
