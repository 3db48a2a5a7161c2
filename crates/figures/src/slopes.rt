// Slopes, and the slopes and valleys of a multi-span roof.
ghost use Rattle.std.specs.Prelude.{◌≡◌};
ghost use Rattle.figures.specs.Spans.{no_spans};

// A slope: its pitch in tenths of a degree, and its plan width in mm.
#[derive(Clone, Copy, Debug, PartialEq, Eq)]
pub struct Slope {
    pub pitch: u32,
    pub width: u32,
}

// A slope and its guard, 0 or 1: a number, since any may be given, and 8 refuses others.
#[derive(Clone, Copy, Debug, PartialEq, Eq)]
pub struct GuardedSlope {
    pub slope: Slope,
    pub guard: u8,
}

// A valley: its depth and its length, b3 of Annex B, in mm.
#[derive(Clone, Copy, Debug, PartialEq, Eq)]
pub struct Valley {
    pub h: u32,
    pub b3: u32,
}

// The slopes of up to 16 spans and the valleys between them, from left to right: span i has slopes 2i and 2i + 1, and valley i lies
// behind it. Behind the roof's own stand zeros: the arrays are as long as the widest roof's, since the terminals have no heap.
#[derive(Clone, Copy, Debug, PartialEq, Eq)]
pub struct Spans {
    pub slopes: [Slope; 32],
    pub valleys: [Valley; 15],
}

impl Spans {
    // The spans of a roof that has none.
    pub fn none() -> Self
        ensures { result ≡ no_spans }
    {
        Spans {
            slopes: [Slope { pitch: 0, width: 0 }; 32],
            valleys: [Valley { h: 0, b3: 0 }; 15],
        }
    }
}
