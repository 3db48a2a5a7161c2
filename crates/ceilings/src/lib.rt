// Who reads a sheet, and the most that a sheet of each may have.
#![tactic(auto)]

ghost use Rattle.std.specs.Prelude.{◌≡◌};
ghost use Rattle.ceilings.specs.Ceilings.{ceiling_of, fits};

// A sheet's most bytes.
pub const SHEET_BYTES: usize = 16_384;

// The callers of the reader: the terminals and the quote desk.
#[derive(Clone, Copy, Debug, PartialEq, Eq)]
pub enum Caller {
    Terminal,
    Desk,
}

// The most items and bytes that a caller's sheets may have.
#[derive(Clone, Copy, Debug, PartialEq, Eq)]
pub struct Ceiling {
    pub items: usize,
    pub bytes: usize,
}

impl Caller {
    // The ceiling of a caller.
    pub fn ceiling(self) -> Ceiling
        ensures { result ≡ ceiling_of self }
    {
        match self {
            Caller::Terminal => Ceiling {
                items: 32,
                bytes: SHEET_BYTES,
            },
            Caller::Desk => Ceiling {
                items: 8,
                bytes: 2_048,
            },
        }
    }
}

impl Ceiling {
    // Whether a sheet of so many bytes that counts so many items is within the ceiling, and has room for its pairs.
    pub fn fits(self, bytes: usize, count: u16) -> bool
        ensures { result ≡ fits self bytes count }
    {
        let count = usize::from(count);
        (2..=self.bytes).contains(&bytes)
            && (1..=self.items).contains(&count)
            && 2 + 4 * count <= bytes
    }
}
