// Returned loads against those of before A4: "No returned load rises by the change, none drops by more than 2".
use crate::made::Made;
use second::{LoadCase, WHOLE};
use std::fmt;

// Loads by how far they lie below what they were before A4: not at all, by 1, by 2, or otherwise, as one that rose; and the worst drop.
#[derive(Clone, Copy, Debug, Default)]
pub struct Drops {
    none: u64,
    one: u64,
    two: u64,
    other: u64,
    worst: u32,
}

impl Drops {
    // Counts one more load, by what it was before.
    pub fn add(&mut self, before: u32, load: u32) {
        match before.checked_sub(load) {
            Some(0) => self.none = self.none.saturating_add(1),
            Some(1) => self.one = self.one.saturating_add(1),
            Some(2) => self.two = self.two.saturating_add(1),
            _ => self.other = self.other.saturating_add(1),
        }
        self.worst = self.worst.max(before.saturating_sub(load));
    }

    // Counts the two loads of every segment, which stand behind its start and its end.
    pub fn add_segments(&mut self, made: &Made, expected: &LoadCase<'_>) {
        for i in 0..expected.segment_count() {
            let segment = expected.segment(i);
            let before = |station| expected.ground.load_on(&segment, station, WHOLE);
            self.add(before(segment.start), made.numbers[4 * i + 2]);
            self.add(before(segment.end), made.numbers[4 * i + 3]);
        }
    }
}

impl fmt::Display for Drops {
    fn fmt<W: fmt::Write>(&self, f: &mut fmt::Formatter<W>) -> fmt::Result {
        let Drops {
            none,
            one,
            two,
            other,
            worst,
        } = *self;
        write!(
            f,
            "AS BEFORE {none} LOWER BY 1 {one} LOWER BY 2 {two} OTHERWISE {other} WORST DROP {worst}"
        )
    }
}
