// The ground load by the map, Table C.1, and of its refusals.
ghost use Rattle.std.specs.Prelude.{◌≤◌};

use crate::wide::Wide;

// Regions 1 to 5: the load at sea level s and s × (altitude/length)², the least n with n × length² ≥ s × (length² + altitude²).
fn by_square(s: u32, altitude: u32, length: u32) -> u32 {
    let square = Wide::from(length) * length;
    (square * s + Wide::from(altitude) * altitude * s).div_ceil(square)
}

// Regions 6 to 8: a kN/m² more for each length, the least n with n × length ≥ s × length + 1,000 × altitude.
fn by_length(s: u32, altitude: u32, length: u32) -> u32 {
    (Wide::from(s) * length + Wide::from(altitude) * 1_000).div_ceil(Wide::from(length))
}

// The row of a region, with the load of a zone at sea level in thousandths of a kN/m².
fn load(region: u8, zone: u32, altitude: u32) -> u32
    requires { (1 ≤ zone) × (zone ≤ 5) }
{
    match region {
        1 => by_square(642 * zone + 9, altitude, 728),
        2 => by_square(264 * zone - 2, altitude, 256),
        3 => by_square(420 * zone - 30, altitude, 917),
        4 => by_square(190 * zone - 95, altitude, 524),
        5 => by_square(498 * zone - 209, altitude, 452),
        6 => by_length(164 * zone - 82, altitude, 966),
        7 => by_length(790 * zone + 375, altitude, 336),
        _ => by_length(140 * zone - 100, altitude, 501),
    }
}

// The ground load of a region, a zone and an altitude, or the number of its refusal: the library's own refusals play no part here.
pub fn ground_load(region: u8, zone: u8, altitude: u16) -> Result<u32, u8> {
    if 1_500 < altitude {
        return Err(7);
    }
    if !matches!((region, zone), (1..=8, 1..=5)) {
        return Err(14);
    }
    let n = load(region, u32::from(zone), u32::from(altitude));
    if (100..=25_000).contains(&n) {
        Ok(n)
    } else {
        Err(15)
    }
}
