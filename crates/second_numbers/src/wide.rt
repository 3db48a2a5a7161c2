// Whole numbers of up to 256 bits.
use super::halving::least;
use std::ops::{Add, Mul, Sub};

// No load of an accepted roof comes near: none has more than 144,000,000 tenths of a N/m², whatever the national figures.
const MOST: u32 = 268_435_456;

// A whole number by its parts of 64 bits, the highest first, so that the derived order is that of the numbers. What passes 256
// bits is lost: the greatest product here, of the sine, has 216.
#[derive(Clone, Copy, Debug, PartialEq, Eq, PartialOrd, Ord)]
pub struct Wide([u64; 4]);

impl From<u32> for Wide {
    fn from(x: u32) -> Wide {
        Wide([0, 0, 0, u64::from(x)])
    }
}

impl Add for Wide {
    type Output = Wide;

    fn add(self, other: Wide) -> Wide {
        carried(self.0, other.0, false, u64::carrying_add)
    }
}

// The difference, of a number and one not above it.
impl Sub for Wide {
    type Output = Wide;

    fn sub(self, other: Wide) -> Wide {
        carried(self.0, other.0, false, u64::borrowing_sub)
    }
}

impl Mul<u32> for Wide {
    type Output = Wide;

    fn mul(self, factor: u32) -> Wide {
        carried(self.0, [u64::from(factor); 4], 0, u64::carrying_mul)
    }
}

impl Wide {
    // The quotient, rounded up: the least whole number whose product with the divisor reaches the number.
    pub fn div_ceil(self, divisor: Wide) -> u32 {
        least(MOST, |quotient| self <= divisor * quotient)
    }
}

// A number of which each part comes from the same parts of two others and from what the part below carries, nothing at the lowest.
fn carried<C: Copy, F: Fn(u64, u64, C) -> (u64, C)>(
    parts: [u64; 4],
    others: [u64; 4],
    nothing: C,
    part: F,
) -> Wide
    requires { F.IsAlwaysCallable part }
{
    let mut result = parts;
    let mut carry = nothing;
    for i in (0..4).rev() {
        (result[i], carry) = part(parts[i], others[i], carry);
    }
    Wide(result)
}
