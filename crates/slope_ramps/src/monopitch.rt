// A slope of one load: the whole of kind 2, a monopitch roof (5.3.2), and each side of a pitched one (5.3.3).
ghost use Rattle.std.specs.Prelude.{◌≡◌};
ghost use Rattle.figures.specs.Bounds.{GuardedIn};
ghost use Rattle.ramps.specs.Ramps.{ramp_of};
ghost use Rattle.standard.specs.Pitched.{slope_stretch};

use figures::GuardedSlope;
use loads::Ground;
use ramps::Ramp;

// A slope's stretch, of its load or of half of it.
#[tactic(auto, unfolding(ramps::specs::Ramps::ramp_of))]
pub fn slope_ramp(slope: GuardedSlope, half: bool, ground: Ground) -> Ramp
    requires { GuardedIn slope }
    ensures { result ≡ ramp_of (slope_stretch ground.factor ground.sk slope.slope slope.guard half) }
{
    Ramp::even(
        4 * u64::from(slope.slope.width),
        ground.slope_load(slope, half),
    )
}
