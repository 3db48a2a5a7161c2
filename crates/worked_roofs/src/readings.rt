// The reader against the load expected at a station, and against the exact load there.
ghost use Rattle.std.specs.Prelude.{◌<◌};

use crate::drops::Drops;
use crate::given::Given;
use counts::Compared;
use figures::Site;
use second::{LoadCase, Segment, TENTHS, WHOLE};
use std::fmt;

// 1.2 N/m² in thousandths: by A4 a reading is "less than 1.2 N/m² above the exact rule".
pub const FAR: u32 = 1_200;

// The greatest ground load in N/m².
const MOST_SK: u32 = 25_000;

// Loads read; those below the exact load, 1.2 N/m² and more above it, and falling where the ground load rises; the worst distance
// above the exact load, in thousandths; and the drops of loads read.
#[derive(Clone, Copy, Debug, Default)]
pub struct Readings {
    loads: Compared,
    low: u64,
    far: u64,
    falling: u64,
    worst: u32,
    drops: Drops,
}

impl Readings {
    // Reads at six stations of every segment.
    pub fn add_segments(&mut self, given: &Given<'_>, expected: &LoadCase<'_>) {
        for i in 0..expected.segment_count() {
            for station in stations(&expected.segment(i), self.loads.answers) {
                self.add(given, expected, station);
            }
        }
    }

    // Reads at a station. A refusal counts as a load far above any.
    fn add(&mut self, given: &Given<'_>, expected: &LoadCase<'_>, station: u32) {
        let load = given.load_or_refusal(expected.code, station);
        let above = |thousandths| expected.above_exact(station, load, thousandths);
        let falls = falls(given, expected.code, station, load);
        self.loads
            .compare(load != expected.load_read(station, TENTHS));
        self.low = self.low.saturating_add(u64::from(!above(0)));
        self.far = self.far.saturating_add(u64::from(above(FAR)));
        self.falling = self.falling.saturating_add(u64::from(falls));
        self.worst = (self.worst..FAR)
            .find(|&distance| !above(distance + 1))
            .unwrap_or(FAR);
        self.drops.add(expected.load_read(station, WHOLE), load);
    }
}

// Whether the load falls where the ground load is one more.
fn falls(given: &Given<'_>, code: u8, station: u32, load: u32) -> bool {
    let sk = given.site.sk;
    if MOST_SK <= sk {
        return false;
    }
    let site = Site {
        sk: sk + 1,
        ..given.site
    };
    Given { site, ..*given }.load_or_refusal(code, station) < load
}

// The stations of a segment: its ends, a quarter millimetre beside them, and two places between, scattered by the count of readings
// before it.
pub fn stations(segment: &Segment, count: u64) -> [u32; 6] {
    let (start, end) = (segment.start, segment.end);
    if end <= start {
        return [start; 6];
    }
    let between = |k: u64| start + scattered(end - start, count.wrapping_add(k));
    [start, end, start + 1, end - 1, between(0), between(1)]
}

// A place along a length.
fn scattered(length: u32, count: u64) -> u32
    requires { 0 < length }
    ensures { result < length }
{
    (count.wrapping_mul(7_919) % u64::from(length)) as u32
}

impl fmt::Display for Readings {
    fn fmt<W: fmt::Write>(&self, f: &mut fmt::Formatter<W>) -> fmt::Result {
        let Readings {
            loads,
            low,
            far,
            falling,
            worst,
            drops,
        } = *self;
        writeln!(
            f,
            "READINGS {loads} TOO LOW {low} TOO FAR {far} FALLING {falling}"
        )?;
        writeln!(f, "WORST DISTANCE {worst} THOUSANDTHS")?;
        write!(f, "LOADS READ {drops}")
    }
}
