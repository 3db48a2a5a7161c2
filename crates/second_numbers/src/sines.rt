// The sine of a pitch in millionths: the nearest whole number to document 01's series, as nested products.
use super::halving::least;
use super::wide::Wide;

// x = pitch × 355/(113 × 1,800) = pitch × 71/40,680.
const ANGLE_NUM: u32 = 71;

const ANGLE_DEN: u32 = 40_680;

const MILLION: u32 = 1_000_000;

// 2j(2j + 1) for j = 5 down to 1.
const STEPS: [u32; 5] = [110, 72, 42, 20, 6];

// The least e with 2e + 1 above twice the millionths of x(1 − x²/6(1 − x²/20(1 − x²/42(1 − x²/72(1 − x²/110))))), where num/den
// is what stands in the brackets, from the inside.
pub fn sine(pitch: u32) -> u32 {
    let x = ANGLE_NUM.saturating_mul(pitch);
    let mut num = Wide::from(1);
    let mut den = Wide::from(1);
    for step in STEPS {
        den = den * step * ANGLE_DEN * ANGLE_DEN;
        num = den - num * x * x;
    }
    let twice = num * x * (2 * MILLION);
    let whole = den * ANGLE_DEN;
    least(MILLION, |e| twice < whole * e * 2 + whole)
}
