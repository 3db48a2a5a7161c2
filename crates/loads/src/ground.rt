// Break loads in tenths of a N/m²: each part of a load rounded up to a tenth.
ghost use Rattle.std.specs.Prelude.{◌≡◌, ◌+◌, ◌*◌, ◌≤◌, cond};
ghost use Rattle.figures.specs.Bounds.{Within, NationalIn, SlopeIn};
ghost use Rattle.loads.specs.Sizes.{GroundIn, Sized};
ghost use Rattle.rounding.specs.Fraction.{over};
ghost use Rattle.rounding.specs.Load.{break_load};
ghost use Rattle.rounding.specs.Up.{rounded_up};
ghost use Rattle.standard.specs.Abutting.{abutting_length, wall_load};
ghost use Rattle.standard.specs.Coefficients.{slope_mu, valley_mu, mu3};
ghost use Rattle.standard.specs.Pitched.{halved};
ghost use Rattle.standard.specs.Projection.{projection_load};
ghost use Rattle.standard.specs.Stretch.{load_alone, eight_tenths};
ghost use Rattle.standard.specs.Units.{parts, largest_part, largest_break};

use figures::{AbuttingRoof, Arch, GuardedSlope, National};
use shape_coefficients::{
    arch_numerator, projection_numerator, slide_numerator, slope_numerator, valley_numerator,
    wind_numerator,
};

// The ground load sk in N/m², and the factor Ce × Ct × Cesl in millionths on it.
#[derive(Clone, Copy)]
pub struct Ground {
    pub factor: u64,
    pub sk: u64,
    ghost in_range: { GroundIn factor sk },
}

// The load n / (d × 1,000,000) in tenths, rounded up: a factor is in millionths, so a tenth is 100,000 of them.
fn up(n: u64, d: u64) -> u64
    requires { (1 ≤ d) × (d ≤ 20000000) × (parts * n ≤ largest_part * (d * 1000000)) }
    ensures { (result ≡ rounded_up parts (over n (d * 1000000))) × (result ≤ largest_part) }
{
    rounding::ceil_div(n, d * 100_000)
}

// What the denominator of a coefficient is multiplied by for half of it.
fn divisor(half: bool) -> u64
    ensures { result ≡ cond half 2 1 }
{
    if half { 2 } else { 1 }
}

impl Ground {
    // The load at μ = m / d in tenths, rounded up.
    fn load_up(self, m: u64, d: u64) -> u64
        requires { Sized m d }
        ensures { (result ≡ rounded_up parts (over (m * self.factor * self.sk) (d * 1000000))) × (result ≤ largest_part) }
    {
        up(m * self.factor * self.sk, d)
    }

    // The load at μ = 0.8.
    pub fn eight_tenths_load(self) -> u64
        ensures { (result ≡ break_load parts (eight_tenths self.factor self.sk)) × (result ≤ largest_part) }
    {
        self.load_up(8, 10)
    }

    // The load of a slope's μ1, or of half of it.
    pub fn slope_load(self, slope: GuardedSlope, half: bool) -> u64
        requires { slope.guard ≤ 1 }
        ensures { (result ≡ break_load parts (load_alone (halved half (slope_mu slope.slope slope.guard)) self.factor self.sk)) × (result ≤ largest_part) }
    {
        self.load_up(slope_numerator(slope), 375 * divisor(half))
    }

    // The load at a valley, by the mean of its two pitches.
    pub fn valley_load(self, left: u32, right: u32) -> u64
        ensures { (result ≡ break_load parts (load_alone (valley_mu left right) self.factor self.sk)) × (result ≤ largest_part) }
    {
        self.load_up(valley_numerator(left, right), 750)
    }

    // The load of a cylindrical roof's μ3, or of half of it.
    pub fn arch_load(self, national: National, arch: Arch, half: bool) -> u64
        requires { NationalIn national × (arch.rise ≤ 15000) × Within 1 30000 arch.span }
        ensures { (result ≡ break_load parts (load_alone (halved half (mu3 national arch.rise arch.span)) self.factor self.sk)) × (result ≤ largest_part) }
    {
        let denominator = 100 * u64::from(arch.span) * divisor(half);
        self.load_up(arch_numerator(national, arch), denominator)
    }

    // The load at the wall of a taller roof: the wind's part and the sliding snow's, each rounded up to a tenth.
    pub fn wall_load(self, national: National, roof: AbuttingRoof, ls: u64) -> u64
        requires { NationalIn national × (roof.b1 + roof.b2 ≤ 300000) × Within 1 30000 roof.h × SlopeIn roof.slope.slope × (roof.slope.guard ≤ 1) × (ls ≡ abutting_length national roof.h) × Within 1000 30000 ls }
        ensures { (result ≡ break_load parts (wall_load national self.factor self.sk roof.b1 roof.b2 roof.h roof.slope.slope roof.slope.guard)) × (result ≤ largest_break) }
    {
        let wind = up(
            wind_numerator(national, roof, self.sk) * self.factor,
            200 * u64::from(roof.h),
        );
        let slide = self.load_up(slide_numerator(roof.slope), 375 * ls);
        wind + slide
    }

    // The load at a projection.
    pub fn projection_load(self, h: u32) -> u64
        requires { h ≤ 30000 }
        ensures { (result ≡ break_load parts (projection_load self.factor self.sk h)) × (result ≤ largest_part) }
    {
        up(projection_numerator(h, self.sk) * self.factor, 10)
    }
}
