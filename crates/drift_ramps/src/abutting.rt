// Kind 6, a lower flat roof at a taller one (5.3.6).
ghost use Rattle.std.specs.Prelude.{◌≡◌, eqb, ◌≤◌, ◌<◌};
ghost use Rattle.figures.specs.Bounds.{Within, NationalIn, AbuttingIn};
ghost use Rattle.ramps.specs.Ramps.{ramp_of};
ghost use Rattle.standard.specs.Abutting.{abutting_length, abutting, abutting_count};

use figures::{AbuttingRoof, National};
use loads::Ground;
use ramps::Ramp;

// The drift length.
fn abutting_length(national: National, h: u32) -> u64
    requires { NationalIn national × (h ≤ 30000) }
    ensures { (result ≡ abutting_length national h) × Within 1000 30000 result }
{
    loads::drift_length(national.short, national.long, h)
}

// The stretch at an index: the drift's ramp from the wall, cut where the roof ends inside it, and what is left.
#[tactic(auto, using(standard::proofs::Abutting::abutting_past, standard::proofs::Abutting::abutting_rest, ramps::proofs::Stretches::stretches), unfolding(standard::specs::Abutting::abutting, standard::specs::Abutting::abutting_drift))]
pub fn abutting_ramp(
    national: National,
    roof: AbuttingRoof,
    code: u8,
    ground: Ground,
    i: usize,
) -> Ramp
    requires { NationalIn national × AbuttingIn roof × (i < abutting_count national roof.b2 roof.h (eqb code 1)) }
    ensures { result ≡ ramp_of (abutting national ground.factor ground.sk roof.b1 roof.b2 roof.h roof.slope.slope roof.slope.guard (eqb code 1) i) }
{
    let b2 = u64::from(roof.b2);
    let rest = ground.eight_tenths_load();
    if code == 1 {
        return Ramp::even(4 * b2, rest);
    }
    let ls = abutting_length(national, roof.h);
    if i == 0 {
        return Ramp {
            extent: 4 * b2.min(ls),
            skip: 0,
            full: 4 * ls,
            from: ground.wall_load(national, roof, ls),
            to: rest,
        };
    }
    Ramp::even(4 * (b2 - ls), rest)
}

// How many stretches the roof has.
#[tactic(auto, using(std::proofs::lemmas::Bool::Decides::nat_tests), unfolding(standard::specs::Abutting::abutting_count))]
pub fn abutting_count(national: National, roof: AbuttingRoof, code: u8) -> usize
    requires { NationalIn national × (roof.h ≤ 30000) }
    ensures { (result ≡ abutting_count national roof.b2 roof.h (eqb code 1)) × (result ≤ 32) }
{
    if code == 1 {
        return 1;
    }
    1 + usize::from(abutting_length(national, roof.h) < u64::from(roof.b2))
}
