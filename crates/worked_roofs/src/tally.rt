// What is counted of roofs.
use crate::drops::Drops;
use crate::moved::Moves;
use crate::readings::Readings;
use counts::Compared;
use std::fmt;

#[derive(Clone, Copy, Debug, Default)]
pub struct Tally {
    pub arrangements: Compared,
    pub segments: u64,
    pub drops: Drops,
    pub refusals: Compared,
    pub readings: Readings,
    pub turned: Compared,
    pub moved: Moves,
    pub forces: Compared,
}

impl fmt::Display for Tally {
    fn fmt<W: fmt::Write>(&self, f: &mut fmt::Formatter<W>) -> fmt::Result {
        let Tally {
            arrangements: Compared { answers, different },
            segments,
            drops,
            refusals,
            readings,
            turned,
            moved,
            forces,
        } = *self;
        writeln!(
            f,
            "ARRANGEMENTS {answers} SEGMENTS {segments} DIFFERENT {different}"
        )?;
        writeln!(f, "SEGMENT LOADS {drops}")?;
        writeln!(f, "REFUSALS {refusals}")?;
        writeln!(f, "{readings}")?;
        writeln!(f, "TURNED {turned}")?;
        writeln!(f, "{moved}")?;
        write!(f, "FORCES {forces}")
    }
}
