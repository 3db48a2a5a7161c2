// Kind 3, a pitched roof (5.3.3).
ghost use Rattle.std.specs.Prelude.{◌≡◌};
ghost use Rattle.figures.specs.Bounds.{PitchedIn};
ghost use Rattle.ramps.specs.Ramps.{ramp_of};
ghost use Rattle.standard.specs.Pitched.{pitched};

use crate::monopitch::slope_ramp;
use figures::GuardedSlope;
use loads::Ground;
use ramps::Ramp;

// The stretch at an index: the left slope, then the right; code 2 halves the left, code 3 the right.
#[tactic(auto, unfolding(standard::specs::Pitched::pitched))]
pub fn pitched_ramp(
    left: GuardedSlope,
    right: GuardedSlope,
    code: u8,
    ground: Ground,
    i: usize,
) -> Ramp
    requires { PitchedIn left right }
    ensures { result ≡ ramp_of (pitched ground.factor ground.sk left.slope right.slope left.guard right.guard code i) }
{
    match i {
        0 => slope_ramp(left, code == 2, ground),
        _ => slope_ramp(right, code == 3, ground),
    }
}
