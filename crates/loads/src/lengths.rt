// The lengths of drifts, and the loaded width of an arch.
ghost use Rattle.std.specs.Prelude.{◌≡◌, ◌≤◌, ◌<◌, ◌*◌};
ghost use Rattle.figures.specs.Bounds.{Within, CylindricalIn};
ghost use Rattle.standard.specs.Coefficients.{drift_length};
ghost use Rattle.standard.specs.Cylindrical.{wide_enough, loaded_width};

use figures::Arch;

// The drift length of a step or a projection: 2h, held to a range (5.3.6, 6.2). Not by `clamp`, which asks that the range isn't empty.
#[tactic(auto, unfolding(standard::specs::Coefficients::drift_length, rounding::specs::Limit::held_to))]
pub fn drift_length(short: u32, long: u32, h: u32) -> u64
    requires { Within 1000 30000 short × Within 1000 30000 long × (h ≤ 30000) }
    ensures { (result ≡ drift_length short long h) × Within 1000 30000 result }
{
    (2 * u64::from(h))
        .min(u64::from(long))
        .max(u64::from(short))
}

// Whether a width of an arch reaches to where it is 60° steep, by squares (5.3.5).
#[tactic(auto, unfolding(standard::specs::Cylindrical::wide_enough))]
fn wide_enough(arch: Arch, ls: u64) -> bool
    requires { (arch.rise ≤ 15000) × (arch.span ≤ 30000) × (ls ≤ 30000) }
    ensures { result ≡ wide_enough arch.rise arch.span ls }
{
    let rise = u64::from(arch.rise);
    let span = u64::from(arch.span);
    let chord = span * span + 4 * (rise * rise);
    let reach = 8 * rise * ls;
    3 * (chord * chord) <= reach * reach
}

// The least width that reaches, by halving the interval between one that does not and one that does. Its two ends close in: there is no
// range to go over.
fn least_width(arch: Arch) -> u64
    requires { CylindricalIn arch × (arch.span * arch.span < 12 * (arch.rise * arch.rise)) }
    ensures { (result ≡ loaded_width arch.rise arch.span) × Within 1 arch.span result }
{
    let mut short: u64 = 0;
    let mut wide = u64::from(arch.span);
    while 1 < wide - short {
        let middle = (short + wide) / 2;
        if wide_enough(arch, middle) {
            wide = middle;
        } else {
            short = middle;
        }
    }
    wide
}

// The loaded width of an arch: the span, or less where the arch is steeper than 60° at its eaves (5.3.5).
#[tactic(auto, using(crate::proofs::Widths::shallow_width))]
pub fn loaded_width(arch: Arch) -> u64
    requires { CylindricalIn arch }
    ensures { (result ≡ loaded_width arch.rise arch.span) × Within 1 arch.span result }
{
    let rise = u64::from(arch.rise);
    let span = u64::from(arch.span);
    if 12 * (rise * rise) <= span * span {
        return span;
    }
    least_width(arch)
}
