// Kinds 11 and 12: exceptional drifts at a parapet and at a small projection, by Annex B.
ghost use Rattle.std.specs.Prelude.{◌≤◌};

use figures::Obstruction;
use second_numbers::{Ratio, Segment, quarters};

// 2h/sk, which times sk is 2h.
fn by_depth(h: u32, sk: u32) -> Ratio {
    Ratio::new(h.saturating_mul(2), sk)
}

// Kind 11: ls, "the smallest of 5h, b1 and 15,000".
fn parapet_length(h: u32, b1: u32) -> u32 {
    h.saturating_mul(5).min(b1).min(15_000)
}

// Kind 11, at the parapet: the smallest of 2h/sk, 2 × b/ls and 8, which times sk are the three loads of A9; b is the larger width.
fn at_parapet(h: u32, b1: u32, b2: u32, sk: u32) -> Ratio {
    let spread = Ratio::new(b1.max(b2).saturating_mul(2), parapet_length(h, b1));
    by_depth(h, sk).min(spread).min(Ratio::new(8, 1))
}

// Kind 11, the segment at an index: down to 0 over ls from the left end, then bare.
fn behind_parapet(h: u32, b1: u32, b2: u32, sk: u32, i: usize) -> Segment {
    let end = quarters(parapet_length(h, b1));
    if i == 0 {
        Segment::uncut(0, end, at_parapet(h, b1, b2, sk), Ratio::NOTHING)
    } else {
        Segment::even(end, quarters(b1), Ratio::NOTHING)
    }
}

// Kind 12, one side of the projection: its height there, and the roof's width.
#[derive(Clone, Copy)]
struct Side {
    h: u32,
    width: u32,
}

impl Side {
    // It falls to 0 "over the smaller of 5h and the width".
    fn length(self) -> u32 {
        self.h.saturating_mul(5).min(self.width)
    }

    // How many segments there are: the drift, and a bare stretch where it ends before the roof does.
    fn count(self) -> usize
        ensures { result ≤ 2 }
    {
        1 + usize::from(self.length() < self.width)
    }

    // At the projection: the smaller of 2h/sk and 5, which times sk are the two loads of A9.
    fn peak(self, sk: u32) -> Ratio {
        by_depth(self.h, sk).min(Ratio::new(5, 1))
    }

    // To the left of the projection: bare where there is room for it, then up to the projection.
    fn on_left(self, sk: u32, i: usize) -> Segment {
        let start = quarters(self.width.saturating_sub(self.length()));
        if i == 0 && 1 < self.count() {
            Segment::even(0, start, Ratio::NOTHING)
        } else {
            Segment::uncut(start, quarters(self.width), Ratio::NOTHING, self.peak(sk))
        }
    }

    // To the right of the projection, which stands behind so much of the roof: down from it, then bare.
    fn on_right(self, before: u32, sk: u32, i: usize) -> Segment {
        let end = quarters(before.saturating_add(self.length()));
        if i == 0 {
            Segment::uncut(quarters(before), end, self.peak(sk), Ratio::NOTHING)
        } else {
            Segment::even(
                end,
                quarters(before.saturating_add(self.width)),
                Ratio::NOTHING,
            )
        }
    }
}

// How many segments the drift and the bare stretches have.
pub fn obstruction_count(by: Obstruction) -> usize
    ensures { result ≤ 4 }
{
    match by {
        Obstruction::Parapet { h, b1, .. } => 1 + usize::from(parapet_length(h, b1) < b1),
        Obstruction::SmallProjection { h1, h2, b1, b2 } => {
            Side { h: h1, width: b1 }.count() + Side { h: h2, width: b2 }.count()
        }
    }
}

// The segment at an index, at a ground load of sk.
pub fn at_obstruction(by: Obstruction, sk: u32, i: usize) -> Segment {
    match by {
        Obstruction::Parapet { h, b1, b2 } => behind_parapet(h, b1, b2, sk, i),
        Obstruction::SmallProjection { h1, h2, b1, b2 } => {
            let left = Side { h: h1, width: b1 };
            let right = Side { h: h2, width: b2 };
            let before = left.count();
            if i < before {
                left.on_left(sk, i)
            } else {
                right.on_right(b1, sk, i - before)
            }
        }
    }
}

// The roof's length in mm: b1 behind a parapet, both widths at a small projection.
pub fn obstructed_length(by: Obstruction) -> u32 {
    match by {
        Obstruction::Parapet { b1, .. } => b1,
        Obstruction::SmallProjection { b1, b2, .. } => b1.saturating_add(b2),
    }
}
