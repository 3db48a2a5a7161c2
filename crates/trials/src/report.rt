// What the records of a file come to.
use crate::listed::Outcome;
use std::fmt;

// Room for the lines on a file of sheets, which are written at once.
pub const LINES_ROOM: usize = 65_536;

// Enough of it for a line on a sheet that differs and the last three lines.
pub const LAST_LINES: usize = 208;

// How many sheets there are, how many of them the library refuses and how many have their stored text; how many are inside the
// quote desk's ceiling, and how many the desk reads as it must.
#[derive(Clone, Copy, Debug, Default)]
pub struct Totals {
    sheets: u64,
    refused: u64,
    agree: u64,
    inside: u64,
    desk_agrees: u64,
}

impl Totals {
    // Counts one more sheet.
    pub fn add(&mut self, outcome: Outcome) {
        self.sheets = self.sheets.saturating_add(1);
        self.refused = self.refused.saturating_add(u64::from(outcome.refused));
        self.agree = self.agree.saturating_add(u64::from(outcome.agrees));
        self.inside = self.inside.saturating_add(u64::from(outcome.inside));
        self.desk_agrees = self
            .desk_agrees
            .saturating_add(u64::from(outcome.desk_agrees));
    }
}

impl fmt::Display for Totals {
    fn fmt<W: fmt::Write>(&self, f: &mut fmt::Formatter<W>) -> fmt::Result {
        let Totals {
            sheets,
            refused,
            agree,
            inside,
            desk_agrees,
        } = *self;
        writeln!(f, "SHEETS {sheets} REFUSED {refused} AGREE {agree}")?;
        write!(f, "DESK {inside} AGREE {desk_agrees}")
    }
}
