// Kinds 6, 7 and 10: drifts at a wall and at a projection.
ghost use Rattle.std.specs.Prelude.{◌≤◌};

use crate::slopes::on_slope;
use figures::{AbuttingRoof, National, ProjectionRoof};
use second_numbers::{Ratio, Segment, quarters};

// 2h/sk.
fn by_depth(h: u32, sk: u32) -> Ratio {
    Ratio::new(h.saturating_mul(2), sk)
}

// A drift falls from a place to 0.8 at ls, or to the roof's end inside it.
fn falling(start: u32, length: u32, room: u32, from: Ratio, slide: Ratio) -> Segment {
    Segment {
        start,
        end: start.saturating_add(quarters(length.min(room))),
        skipped: 0,
        length: quarters(length),
        from,
        slide,
        to: Ratio::EIGHT_TENTHS,
    }
}

// A drift rises from 0.8 to a place, or from the roof's beginning inside it.
fn rising(length: u32, room: u32, to: Ratio) -> Segment {
    Segment {
        start: quarters(room.saturating_sub(length)),
        end: quarters(room),
        skipped: quarters(length.saturating_sub(room)),
        length: quarters(length),
        from: Ratio::EIGHT_TENTHS,
        slide: Ratio::NOTHING,
        to,
    }
}

// Kinds 6 and 10: a roof at a wall, under the national figures in use.
#[derive(Clone, Copy, Debug)]
pub struct Wall {
    pub roof: AbuttingRoof,
    pub national: National,
}

impl Wall {
    // ls = 2h, held by A8 to the range of the national figures; in a store that 18 refuses the range may be turned round.
    fn drift_length(&self) -> u32 {
        let National { short, long, .. } = self.national;
        let twice = self.roof.h.saturating_mul(2);
        if twice < short {
            short
        } else {
            twice.min(long)
        }
    }

    // μw: (b1 + b2)/2h, first limited above by 2h/sk and by the top of its range, then below by the bottom.
    fn by_wind(&self, sk: u32) -> Ratio {
        let AbuttingRoof { b1, b2, h, .. } = self.roof;
        Ratio::new(b1.saturating_add(b2), h.saturating_mul(2))
            .min(by_depth(h, sk))
            .min(Ratio::new(self.national.high, 100))
            .max(Ratio::new(self.national.low, 100))
    }

    // μs: 0 up to 15.0°; above that μ1 × slope width/ls.
    fn by_sliding(&self) -> Ratio {
        let slope = self.roof.slope.slope;
        if slope.pitch <= 150 {
            return Ratio::NOTHING;
        }
        let Ratio { num, den } = on_slope(self.roof.slope);
        Ratio::new(
            num.saturating_mul(slope.width),
            den.saturating_mul(self.drift_length()),
        )
    }

    // Code 2 has a segment beyond ls if the roof reaches further.
    pub fn count(&self, code: u8) -> usize
        ensures { result ≤ 2 }
    {
        1 + usize::from(code == 2 && self.drift_length() < self.roof.b2)
    }

    // Code 2, at the wall: from μs + μw.
    pub fn drift(&self, sk: u32) -> Segment {
        falling(
            0,
            self.drift_length(),
            self.roof.b2,
            self.by_wind(sk),
            self.by_sliding(),
        )
    }

    // What is even at 0.8, all of it in code 1, beyond ls in code 2.
    pub fn beyond(&self, code: u8) -> Segment {
        let start = match code {
            1 => 0,
            _ => quarters(self.drift_length()),
        };
        Segment::even(start, quarters(self.roof.b2), Ratio::EIGHT_TENTHS)
    }
}

// Kind 7: ls = 2h, held to 5 m to 15 m; by A8 "kind 7 keeps its own limits".
fn projection_length(h: u32) -> u32 {
    h.saturating_mul(2).clamp(5_000, 15_000)
}

// μ2 at a projection: 2h/sk held to 0.8..2.0.
fn at_projection(h: u32, sk: u32) -> Ratio {
    by_depth(h, sk)
        .min(Ratio::new(2, 1))
        .max(Ratio::EIGHT_TENTHS)
}

// Kind 7: two drifts, and an even stretch beyond each if the roof reaches further.
pub fn projection_count(roof: ProjectionRoof) -> usize
    ensures { result ≤ 4 }
{
    let length = projection_length(roof.h);
    2 + usize::from(length < roof.left) + usize::from(length < roof.right)
}

// Kind 7, code 2, the segment at an index.
pub fn around_projection(roof: ProjectionRoof, sk: u32, i: usize) -> Segment {
    let ProjectionRoof { h, left, right } = roof;
    let length = projection_length(h);
    let peak = at_projection(h, sk);
    let drift = usize::from(length < left);
    if i < drift {
        Segment::even(
            0,
            quarters(left.saturating_sub(length)),
            Ratio::EIGHT_TENTHS,
        )
    } else if i == drift {
        rising(length, left, peak)
    } else if i == drift + 1 {
        falling(quarters(left), length, right, peak, Ratio::NOTHING)
    } else {
        Segment::even(
            quarters(left.saturating_add(length)),
            quarters(left.saturating_add(right)),
            Ratio::EIGHT_TENTHS,
        )
    }
}
