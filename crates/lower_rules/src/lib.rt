// The value rules on a lower flat roof, kinds 6 and 10: refusal 8.
#![tactic(auto)]

ghost use Rattle.std.specs.Prelude.{◌≡◌};
ghost use Rattle.figures.specs.Refusal.{number_in};
ghost use Rattle.figures.specs.RoofRules.{widest_upper, abutting_refusal, lower_refusal};

use figures::{AbuttingRoof, LowerRoof, Refusal};
use slope_rules::guarded_fields;

// The widest upper roof, of kind 10 and of kind 6.
fn widest_upper(stepped: bool) -> u32
    ensures { result ≡ widest_upper stepped }
{
    if stepped { 200_000 } else { 100_000 }
}

// Kinds 6 and 10.
pub fn check_abutting(roof: AbuttingRoof) -> Result<(), Refusal>
    ensures { number_in result ≡ abutting_refusal roof }
{
    let widest = widest_upper(roof.stepped);
    let sound = (1..=widest).contains(&roof.b1)
        && (1..=100_000).contains(&roof.b2)
        && (1..=30_000).contains(&roof.h)
        && guarded_fields(roof.slope);
    if !sound {
        return Err(Refusal::RoofField);
    }
    Ok(())
}

// An item of kind 10 by itself, whose other figures come from its upper item.
pub fn check_lower(lower: LowerRoof) -> Result<(), Refusal>
    ensures { number_in result ≡ lower_refusal lower }
{
    let sound = (1..=100_000).contains(&lower.b2)
        && (1..=30_000).contains(&lower.h)
        && lower.side <= 1;
    if !sound {
        return Err(Refusal::RoofField);
    }
    Ok(())
}
