// Exact fractions, as shape coefficients are.
use super::wide::Wide;

// The fraction num/den. It has no order of its own, since 0/0 would equal every other: `min` and `max` compare by cross products.
#[derive(Clone, Copy, Debug)]
pub struct Ratio {
    pub num: u32,
    pub den: u32,
}

impl Ratio {
    pub const NOTHING: Ratio = Ratio { num: 0, den: 1 };

    // 0.8.
    pub const EIGHT_TENTHS: Ratio = Ratio { num: 8, den: 10 };

    pub fn new(num: u32, den: u32) -> Ratio {
        Ratio { num, den }
    }

    pub fn halved(self) -> Ratio {
        Ratio::new(self.num, self.den.saturating_mul(2))
    }

    fn is_at_most(self, other: Ratio) -> bool {
        Wide::from(self.num) * other.den <= Wide::from(other.num) * self.den
    }

    pub fn min(self, other: Ratio) -> Ratio {
        if self.is_at_most(other) { self } else { other }
    }

    pub fn max(self, other: Ratio) -> Ratio {
        if self.is_at_most(other) { other } else { self }
    }
}
