// The shape coefficients over one denominator each. These calls are for the crates above: what they require, accepted figures keep. Each
// names what it uses of a shape, so that it asks no more.
#![tactic(auto)]

ghost use Rattle.std.specs.Prelude.{◌≡◌, ◌+◌, ◌*◌, ◌≤◌, min, max};
ghost use Rattle.standard.specs.Numerators.{mu1_num, slope_num, mu2_num, mu3_num, wind_num, slide_num, projection_num};
ghost use Rattle.figures.specs.Bounds.{NationalIn};

use figures::{AbuttingRoof, Arch, GuardedSlope, National};

// 375 times μ1 (Table 5.2).
#[tactic(auto, unfolding(standard::specs::Numerators::mu1_num))]
fn mu1_numerator(pitch: u32) -> u64
    ensures { (result ≡ mu1_num pitch) × (result ≤ 300) }
{
    match pitch {
        0..=300 => 300,
        301..=599 => 600 - u64::from(pitch),
        600..=800 => 0,
        _ => 0,
    }
}

// 375 times μ1 of a slope, which a guard never leaves below 0.8 (5.3.2).
#[tactic(auto, unfolding(standard::specs::Numerators::slope_num, standard::specs::Numerators::mu1_num))]
pub fn slope_numerator(slope: GuardedSlope) -> u64
    requires { slope.guard ≤ 1 }
    ensures { (result ≡ slope_num slope.slope.pitch slope.guard) × (result ≤ 300) }
{
    if slope.guard == 1 {
        return 300;
    }
    mu1_numerator(slope.slope.pitch)
}

// 750 times μ2 of the mean of two pitches (Table 5.2).
#[tactic(auto, unfolding(standard::specs::Numerators::mu2_num))]
pub fn valley_numerator(left: u32, right: u32) -> u64
    ensures { (result ≡ mu2_num (left + right)) × (result ≤ 1200) }
{
    1_200.min(600 + u64::from(left) + u64::from(right))
}

// 100 × span times μ3 (5.3.5).
#[tactic(auto, unfolding(standard::specs::Numerators::mu3_num))]
pub fn arch_numerator(national: National, arch: Arch) -> u64
    requires { NationalIn national × (arch.rise ≤ 15000) × (arch.span ≤ 30000) }
    ensures { (result ≡ mu3_num national arch.rise arch.span) × (result ≤ 800 * arch.span) }
{
    let span = u64::from(arch.span);
    (u64::from(national.arch) * span).min(20 * span + 1_000 * u64::from(arch.rise))
}

// A number limited above by depth and by high, then below by low: the order of the limits on μw (5.3.6).
fn limited(x: u64, depth: u64, high: u64, low: u64) -> u64
    ensures { result ≡ max low (min high (min depth x)) }
{
    x.min(depth).min(high).max(low)
}

// 200 × h × sk times μw, limited above by 2h/sk and the upper value, then below by the lower value (5.3.6).
#[tactic(auto, using(crate::proofs::Wind::wind_most), unfolding(standard::specs::Numerators::wind_num))]
pub fn wind_numerator(national: National, roof: AbuttingRoof, sk: u64) -> u64
    requires { NationalIn national × (roof.b1 + roof.b2 ≤ 300000) × (roof.h ≤ 30000) × (sk ≤ 25000) }
    ensures { (result ≡ wind_num national (roof.b1 + roof.b2) roof.h sk) × (result ≤ 1600 * roof.h * sk) }
{
    let b = u64::from(roof.b1) + u64::from(roof.b2);
    let h = u64::from(roof.h);
    let high = 2 * h * u64::from(national.high) * sk;
    let low = 2 * h * u64::from(national.low) * sk;
    limited(100 * b * sk, 400 * h * h, high, low)
}

// 375 × ls times μs: 0 up to 15.0°, above that μ1 of the slope times its width (5.3.6).
#[tactic(auto, unfolding(standard::specs::Numerators::slide_num))]
pub fn slide_numerator(slope: GuardedSlope) -> u64
    requires { (slope.guard ≤ 1) × (slope.slope.width ≤ 100000) }
    ensures { (result ≡ slide_num slope.slope slope.guard) × (result ≤ 30000000) }
{
    if slope.slope.pitch <= 150 {
        return 0;
    }
    slope_numerator(slope) * u64::from(slope.slope.width)
}

// 10 × sk times μ2 at a projection: 2h/sk held to 0.8..2.0 (6.2).
#[tactic(auto, unfolding(standard::specs::Numerators::projection_num))]
pub fn projection_numerator(h: u32, sk: u64) -> u64
    requires { (h ≤ 30000) × (sk ≤ 25000) }
    ensures { (result ≡ projection_num h sk) × (result ≤ 20 * sk) }
{
    (20 * u64::from(h)).min(20 * sk).max(8 * sk)
}
