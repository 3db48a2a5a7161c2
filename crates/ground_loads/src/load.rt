// The load on the ground by a row of Table C.1.
ghost use Rattle.std.specs.Prelude.{◌≡◌, ◌≤◌};
ghost use Rattle.figures.specs.Bounds.{Within};
ghost use Rattle.rounding.specs.Up.{rounded_up};
ghost use Rattle.ground_loads.specs.Map.{RowIn, MapIn, zone_load, by_form, expression, ground_load};
ghost use Rattle.ground_loads.specs.declared.table.Form.TheVariants.{Square, Linear};

use crate::table::{Form, Row, row_of};
use rounding::ceil_div;

// The load of the zone at altitude 0.
fn zone_load(row: Row, zone: u64) -> u64
    requires { RowIn row × Within 1 5 zone }
    ensures { (result ≡ zone_load row zone) × (result ≤ 6000) }
{
    row.factor * zone + row.plus - row.minus
}

// The zone's load times 1 + (altitude/divisor)², rounded up.
fn square_load(base: u64, divisor: u64, altitude: u64) -> u64
    requires { (base ≤ 6000) × Within 1 1000 divisor × (altitude ≤ 1500) }
    ensures { result ≡ rounded_up 1 (by_form Square base divisor altitude) }
{
    let square = divisor * divisor;
    ceil_div(base * (square + altitude * altitude), square)
}

// The zone's load and 1,000 altitude/divisor, rounded up.
fn linear_load(base: u64, divisor: u64, altitude: u64) -> u64
    requires { (base ≤ 6000) × Within 1 1000 divisor × (altitude ≤ 1500) }
    ensures { result ≡ rounded_up 1 (by_form Linear base divisor altitude) }
{
    ceil_div(base * divisor + 1_000 * altitude, divisor)
}

// The load of a zone at an altitude by a row.
fn row_load(row: Row, zone: u64, altitude: u64) -> u64
    requires { RowIn row × Within 1 5 zone × (altitude ≤ 1500) }
    ensures { result ≡ rounded_up 1 (expression row zone altitude) }
{
    let base = zone_load(row, zone);
    match row.form {
        Form::Square => square_load(base, row.divisor, altitude),
        Form::Linear => linear_load(base, row.divisor, altitude),
    }
}

// The load of a region, a zone and an altitude that the table has.
#[tactic(auto, unfolding(crate::specs::Map::ground_load))]
pub fn table_load(region: u8, zone: u8, altitude: u16) -> u64
    requires { MapIn region zone altitude }
    ensures { result ≡ ground_load region zone altitude }
{
    row_load(row_of(region), u64::from(zone), u64::from(altitude))
}
