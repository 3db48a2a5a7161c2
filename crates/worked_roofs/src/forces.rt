// Local forces against the second calculation.
use crate::given::Given;
use counts::Compared;
use figures::{GuardedSlope, Roof, Shape, Slope, Spans};
use stored_lines::Pitches;

// The steepest pitch that is tried, in tenths of a degree.
const STEEPEST: u32 = 800;

// Both forces at a slope.
pub fn compare_slope(given: &Given<'_>, slope: u8, count: &mut Compared) {
    let eave = second::overhang(given.site, given.roof, slope);
    count.compare(given.overhang(slope) != Ok(eave));
    let guard = second::guard_force(given.site, given.roof, slope);
    count.compare(given.guard_force(slope) != Ok(guard));
}

// Guarded slopes at every twelfth pitch from the first on.
pub fn compare_pitches(store: &[u32], pitches: &Pitches, count: &mut Compared) {
    let Pitches { first, width, site } = *pitches;
    for pitch in (first..=STEEPEST).step_by(12) {
        let roof = guarded_roof(Slope { pitch, width });
        let given = Given {
            store,
            site,
            roof: &roof,
        };
        compare_slope(&given, 1, count);
    }
}

// A roof of one slope with a guard.
fn guarded_roof(slope: Slope) -> Roof {
    Roof {
        shape: Shape::Monopitch(GuardedSlope { slope, guard: 1 }),
        spans: Spans::none(),
    }
}
