// An arrangement's segments, written into a slice that the caller lends, and the numbers of one by itself. For the crates above, which
// have accepted figures.
#![tactic(auto)]

ghost use Rattle.std.specs.Prelude.{◌++◌, ◌≡◌, length, drop, suc, ◌*◌, ◌≤◌, ◌<◌};
ghost use Rattle.standard.specs.Arrangements.{count, stretch};
ghost use Rattle.standard.specs.Stretch.{start_of, segment, segments};
ghost use Rattle.standard.specs.Units.{parts};
ghost use Rattle.written_segments.specs.Segments.{numbers};

use segments::Arrangement;

// A segment: start and end in quarter millimetres, the loads there in N/m².
#[derive(Clone, Copy)]
pub struct Segment {
    pub start: u32,
    pub end: u32,
    pub from: u32,
    pub to: u32,
}

impl Segment {
    // Its four numbers.
    fn numbers(self) -> [u32; 4]
        ensures { result ≡ numbers self }
    {
        [self.start, self.end, self.from, self.to]
    }
}

// The segment at an index, which starts where the one before ends.
fn segment_at(arrangement: &Arrangement, i: usize, start: u32) -> Segment
    requires index_in { i < count arrangement.now.figures.now.national arrangement.now.figures.now.roof arrangement.now.code }
    requires start_value { let f = arrangement.now.figures.now in start ≡ start_of (stretch f.national f.site f.roof arrangement.now.code) i }
    ensures numbers { let f = arrangement.now.figures.now in numbers result ≡ segment parts (stretch f.national f.site f.roof arrangement.now.code) i }
    ensures end { let f = arrangement.now.figures.now in result.end ≡ start_of (stretch f.national f.site f.roof arrangement.now.code) (suc i) }
{
    let ramp = arrangement.ramp(i);
    let extent = ramp.extent;
    Segment {
        start,
        end: start + extent as u32,
        from: ramp.reading(0) as u32,
        to: ramp.reading(extent) as u32,
    }
}

// The four numbers of the segment at an index, by itself.
pub fn numbers_at(arrangement: &Arrangement, i: usize) -> [u32; 4]
    requires { i < count arrangement.now.figures.now.national arrangement.now.figures.now.roof arrangement.now.code }
    ensures { let f = arrangement.now.figures.now in result ≡ segment parts (stretch f.national f.site f.roof arrangement.now.code) i }
{
    segment_at(arrangement, i, arrangement.start(i) as u32).numbers()
}

// Writes the segments of an arrangement at the front of the slice, one after the other.
pub fn write(arrangement: Arrangement, out: &mut [u32])
    requires { 4 * count arrangement.figures.now.national arrangement.figures.now.roof arrangement.code ≤ length out.old }
    ensures { let f = arrangement.entry.figures.now in let n = count f.national f.roof arrangement.entry.code in
        out.new ≡ segments parts (stretch f.national f.site f.roof arrangement.entry.code) n ++ drop (4 * n) out.old }
{
    let mut start = 0;
    for i in 0..arrangement.count() {
        let segment = segment_at(&arrangement, i, start);
        out[4 * i..4 * i + 4].copy_from_slice(&segment.numbers());
        start = segment.end;
    }
}
