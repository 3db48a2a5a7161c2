// A segment with the coefficients of its uncut line.
use super::ratio::Ratio;

// A length in quarter millimetres. As everywhere in the second calculation, what passes 32 bits is held to the greatest number, and
// what falls below 0 to 0: no accepted roof comes to either.
pub fn quarters(length: u32) -> u32 {
    length.saturating_mul(4)
}

// From start to end, in quarter millimetres. The uncut line is length long and begins skipped before the start. At its
// beginning stand from and slide, each rounded up by itself, at its end stands to.
#[derive(Clone, Copy, Debug)]
pub struct Segment {
    pub start: u32,
    pub end: u32,
    pub skipped: u32,
    pub length: u32,
    pub from: Ratio,
    pub slide: Ratio,
    pub to: Ratio,
}

impl Segment {
    // An even stretch.
    pub fn even(start: u32, end: u32, ratio: Ratio) -> Segment {
        Segment::uncut(start, end, ratio, ratio)
    }

    // A line as long as its segment.
    pub fn uncut(start: u32, end: u32, from: Ratio, to: Ratio) -> Segment {
        Segment {
            start,
            end,
            skipped: 0,
            length: end.saturating_sub(start),
            from,
            slide: Ratio::NOTHING,
            to,
        }
    }

    // Whether the segment holds a station, its ends included.
    pub fn holds(&self, station: u32) -> bool {
        self.start <= station && station <= self.end
    }

    // How far a station lies from the beginning of the uncut line.
    pub fn along(&self, station: u32) -> u32 {
        self.skipped
            .saturating_add(station.saturating_sub(self.start))
    }
}
