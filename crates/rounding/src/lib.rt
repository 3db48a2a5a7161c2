// Rounding up, and limits. The definitions and the laws of rounding, of limits and of ramps stand in specs/ and proofs/.
#![tactic(auto)]

mod limits;

ghost use Rattle.std.specs.Prelude.{◌≡◌};
ghost use Rattle.rounding.specs.Up.{ceil_div};

pub use limits::{least, less, most};

// The smallest whole number not below n / d, and 0 where d is 0.
#[tactic(auto, using(crate::proofs::Rounding::by_zero, crate::proofs::Rounding::quotient_up))]
pub fn ceil_div(n: u64, d: u64) -> u64
    ensures { result ≡ ceil_div n d }
{
    if d == 0 { 0 } else { n.div_ceil(d) }
}
