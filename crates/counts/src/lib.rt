// Counts of answers: how many were compared, and how many of them differ.
#![tactic(auto)]

ghost use Rattle.std.specs.Prelude.{◌≡◌, ◌+◌, ◌-◌, ◌^◌, min, cond};

use std::fmt;

// Answers that were compared with what was expected of them.
#[derive(Clone, Copy, Debug, Default, PartialEq, Eq)]
pub struct Compared {
    pub answers: u64,
    pub different: u64,
}

impl Compared {
    // Counts one more answer, and whether it differs.
    pub fn compare(&mut self, differs: bool)
        ensures answers { self.new.answers ≡ min (self.old.answers + 1) (2 ^ 64 - 1) }
        ensures different { self.new.different ≡ min (self.old.different + cond differs 1 0) (2 ^ 64 - 1) }
    {
        self.answers = self.answers.saturating_add(1);
        self.different = self.different.saturating_add(u64::from(differs));
    }
}

impl fmt::Display for Compared {
    fn fmt<W: fmt::Write>(&self, f: &mut fmt::Formatter<W>) -> fmt::Result {
        let Compared { answers, different } = *self;
        write!(f, "{answers} DIFFERENT {different}")
    }
}

// Answers of calls that may refuse what they are given: those where it is accepted, and those where it is refused.
#[derive(Clone, Copy, Debug, Default, PartialEq, Eq)]
pub struct Verdicts {
    pub accepted: Compared,
    pub refused: Compared,
}

impl fmt::Display for Verdicts {
    fn fmt<W: fmt::Write>(&self, f: &mut fmt::Formatter<W>) -> fmt::Result {
        let Verdicts { accepted, refused } = *self;
        write!(f, "{accepted} REFUSED {refused}")
    }
}
