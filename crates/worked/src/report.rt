// What the program counts.
use counts::{Compared, Verdicts};
use std::fmt;
use worked_roofs::Tally;

// Lines, of which those that can't be read differ; stored figures; roofs; ground loads; days on which a set is in use; stores of national
// sets; sets added to them.
#[derive(Clone, Copy, Debug, Default)]
pub struct Report {
    pub lines: Compared,
    pub figures: Compared,
    pub roofs: Tally,
    pub ground: Compared,
    pub days: Compared,
    pub stores: Verdicts,
    pub sets: Verdicts,
}

impl fmt::Display for Report {
    fn fmt<W: fmt::Write>(&self, f: &mut fmt::Formatter<W>) -> fmt::Result {
        let Report {
            lines: Compared { answers, different },
            figures,
            roofs,
            ground,
            days,
            stores,
            sets,
        } = *self;
        writeln!(f, "LINES {answers} UNREADABLE {different}")?;
        writeln!(f, "FIGURES {figures}")?;
        writeln!(f, "{roofs}")?;
        writeln!(f, "GROUND LOADS {ground}")?;
        writeln!(f, "SETS IN USE {days}")?;
        writeln!(f, "STORES ACCEPTED {stores}")?;
        write!(f, "SETS ADDED {sets}")
    }
}
