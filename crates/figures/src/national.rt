// The nationally determined figures.
ghost use Rattle.std.specs.Prelude.{◌≡◌};
ghost use Rattle.figures.specs.National.{recommended_figures};

// The upper value of μ3 and the range of μw in hundredths, and the range of drift lengths of a roof abutting a taller one in mm.
#[derive(Clone, Copy, Debug, PartialEq, Eq)]
pub struct National {
    pub arch: u32,
    pub low: u32,
    pub high: u32,
    pub short: u32,
    pub long: u32,
}

// A set: its first day, and the figures in use from it on.
#[derive(Clone, Copy, Debug, PartialEq, Eq)]
pub struct NationalSet {
    pub day: u32,
    pub figures: National,
}

impl National {
    // The values that the standard recommends.
    pub fn recommended() -> Self
        ensures { result ≡ recommended_figures }
    {
        National {
            arch: 200,
            low: 80,
            high: 400,
            short: 5_000,
            long: 15_000,
        }
    }
}
