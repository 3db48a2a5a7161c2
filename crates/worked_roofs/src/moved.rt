// Roofs with one pitch moved by a tenth: "must move a reading by less than X/375 + 1.2 N/m², where X is the unrounded load at μ = 1".
use crate::given::Given;
use crate::readings::{FAR, stations};
use counts::Compared;
use figures::Roof;
use second::{LoadCase, TENTHS};
use std::fmt;

// A valley that is too steep, by the documents' number: a moved pitch that keeps its range can break no other rule.
const STEEP_VALLEY: u8 = 9;

// Loads read at a place before and after a pitch has moved: different are those that move by X/375 + 1.2 N/m² or more, and those that aren't
// the second calculation's. How many moved roofs are refused, and the greatest distance beyond X/375, in thousandths.
#[derive(Clone, Copy, Debug, Default)]
pub struct Moves {
    readings: Compared,
    refused: u64,
    worst: u32,
}

impl Moves {
    // Every pitch of a roof moves either way, in a code below 30 that it has.
    pub fn add(&mut self, given: &Given<'_>, expected: &LoadCase<'_>) {
        if 30 <= expected.code {
            return;
        }
        for slope in 0..second::pitch_count(given.roof) {
            for steeper in [false, true] {
                if let Some(roof) = second::moved(given.roof, slope, steeper) {
                    self.add_roof(given, expected, &roof, slope);
                }
            }
        }
    }

    // Reads on the slope that has moved, at its two breaks, and on its neighbours.
    fn add_roof(&mut self, given: &Given<'_>, expected: &LoadCase<'_>, roof: &Roof, slope: usize) {
        let other = Given { roof, ..*given };
        if other.load(expected.code, 0) == Err(STEEP_VALLEY) {
            self.refused = self.refused.saturating_add(1);
            return;
        }
        let moved = LoadCase { roof, ..*expected };
        let last = expected.segment_count().min(slope.saturating_add(2));
        for i in slope.saturating_sub(1)..last {
            let [start, end, .., between] = stations(&expected.segment(i), self.readings.answers);
            self.add_reading(given, &moved, between);
            if i == slope {
                self.add_reading(given, &moved, start);
                self.add_reading(given, &moved, end);
            }
        }
    }

    fn add_reading(&mut self, given: &Given<'_>, moved: &LoadCase<'_>, station: u32) {
        let roof = moved.roof;
        let before = given.load(moved.code, station);
        let after = Given { roof, ..*given }.load(moved.code, station);
        let (Ok(before), Ok(after)) = (before, after) else {
            self.readings.compare(true);
            return;
        };
        let difference = before.abs_diff(after);
        let beyond = |thousandths| moved.ground.moves_beyond(difference, thousandths);
        let unmoved = LoadCase {
            roof: given.roof,
            ..*moved
        };
        let differs = before != unmoved.load_read(station, TENTHS)
            || after != moved.load_read(station, TENTHS);
        self.readings.compare(differs || beyond(FAR));
        self.worst = (self.worst..FAR)
            .find(|&distance| !beyond(distance + 1))
            .unwrap_or(FAR);
    }
}

impl fmt::Display for Moves {
    fn fmt<W: fmt::Write>(&self, f: &mut fmt::Formatter<W>) -> fmt::Result {
        let Moves {
            readings,
            refused,
            worst,
        } = *self;
        writeln!(f, "MOVED BY A TENTH {readings} ROOFS REFUSED {refused}")?;
        write!(f, "WORST BEYOND X/375 {worst} THOUSANDTHS")
    }
}
