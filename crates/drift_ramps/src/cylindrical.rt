// Kind 5, a cylindrical roof (5.3.5).
ghost use Rattle.std.specs.Prelude.{cond, ◌≡◌, eqb, ltb, ◌≤◌, ◌<◌, suc};
ghost use Rattle.figures.specs.Bounds.{Within, NationalIn, CylindricalIn};
ghost use Rattle.ramps.specs.Ramps.{ramp_of};
ghost use Rattle.standard.specs.Cylindrical.{arch_even, arch_drift, half_load, peak_load, cylindrical, cylindrical_count};

use figures::{Arch, National};
use loads::Ground;
use ramps::Ramp;

// The index in the full row, which begins with its second stretch where the first has no length.
#[tactic(auto, using(std::proofs::lemmas::Bool::Decides::nat_tests))]
pub fn row_index(short: u64, long: u64, i: usize) -> usize
    requires { i < 32 }
    ensures { result ≡ cond (ltb short long) i (suc i) }
{
    if short < long { i } else { i + 1 }
}

// Code 1 at an index of the full row: bare, loaded, bare.
#[tactic(auto, using(standard::proofs::Cylindrical::even_bare, ramps::proofs::Stretches::stretches), unfolding(standard::specs::Cylindrical::arch_even))]
fn even_arch(span: u64, ls: u64, ground: Ground, j: usize) -> Ramp
    requires { Within 1 span ls × (span ≤ 30000) × ((j ≡ 1 → ⊥) → ls < span) }
    ensures { result ≡ ramp_of (arch_even ground.factor ground.sk span ls j) }
{
    if j == 1 {
        return Ramp::even(4 * ls, ground.eight_tenths_load());
    }
    Ramp::even(2 * (span - ls), 0)
}

// Code 2 at an index of the full row: bare, up and down to half the peak, up and down to the peak, bare.
#[tactic(auto, using(standard::proofs::Cylindrical::drift_bare, standard::proofs::Cylindrical::bare_ends, ramps::proofs::Stretches::stretches), unfolding(standard::specs::Cylindrical::arch_drift, standard::specs::Cylindrical::half_load, standard::specs::Cylindrical::peak_load))]
fn drift_arch(national: National, arch: Arch, ls: u64, ground: Ground, j: usize) -> Ramp
    requires { NationalIn national × CylindricalIn arch × Within 1 arch.span ls × (j ≡ 0 → ls < arch.span) × (4 < j → ls < arch.span) }
    ensures { result ≡ ramp_of (arch_drift (half_load national ground.factor ground.sk arch.rise arch.span) (peak_load national ground.factor ground.sk arch.rise arch.span) arch.span ls j) }
{
    match j {
        1 | 3 => Ramp::whole(ls, 0, ground.arch_load(national, arch, j == 1)),
        2 | 4 => Ramp::whole(ls, ground.arch_load(national, arch, j == 2), 0),
        _ => Ramp::even(2 * (u64::from(arch.span) - ls), 0),
    }
}

// The stretch at an index.
#[tactic(auto, using(standard::proofs::Cylindrical::arch_row), unfolding(standard::specs::Cylindrical::cylindrical))]
pub fn cylindrical_ramp(national: National, arch: Arch, code: u8, ground: Ground, i: usize) -> Ramp
    requires { NationalIn national × CylindricalIn arch × (i < cylindrical_count arch.rise arch.span (eqb code 1)) }
    ensures { result ≡ ramp_of (cylindrical national ground.factor ground.sk arch.rise arch.span (eqb code 1) i) }
{
    let ls = loads::loaded_width(arch);
    let span = u64::from(arch.span);
    let j = row_index(ls, span, i);
    if code == 1 {
        return even_arch(span, ls, ground, j);
    }
    drift_arch(national, arch, ls, ground, j)
}

// How many stretches the roof has: the loaded ones, and the two bare ends of an arch that is not loaded all along.
#[tactic(auto, using(std::proofs::lemmas::Bool::Decides::nat_tests), unfolding(standard::specs::Cylindrical::cylindrical_count))]
pub fn cylindrical_count(arch: Arch, code: u8) -> usize
    requires { CylindricalIn arch }
    ensures { (result ≡ cylindrical_count arch.rise arch.span (eqb code 1)) × (result ≤ 32) }
{
    let bare = 2 * usize::from(loads::loaded_width(arch) < u64::from(arch.span));
    if code == 1 { 1 + bare } else { 4 + bare }
}
