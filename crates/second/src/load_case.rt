// A roof in one arrangement under a job: its segments from left to right, and the loads read on them.
ghost use Rattle.std.specs.Prelude.{◌≤◌, ◌<◌};

use crate::codes::persistent;
use crate::loads::Ground;
use figures::{AbuttingRoof, National, Roof, Shape, Site};
use second_numbers::{Ratio, Segment};
use second_shapes::{
    DRIFT_SEGMENTS, Wall, arch_count, around_projection, at_obstruction, in_drift,
    obstruction_count, on_cylinder, on_left, on_monopitch, on_right, on_spans, projection_count,
};

// The slopes of a multi-span roof.
pub fn slope_count(count: u8) -> usize
    ensures { result ≤ 32 }
{
    2 * usize::from(count.min(16))
}

// The roof, the code of its arrangement, the national figures in use, and the ground load with its factor.
#[derive(Clone, Copy)]
pub struct LoadCase<'a> {
    pub national: National,
    pub ground: Ground,
    pub roof: &'a Roof,
    pub code: u8,
}

impl<'a> LoadCase<'a> {
    pub fn new(national: National, site: Site, roof: &'a Roof, code: u8) -> LoadCase<'a> {
        LoadCase {
            national,
            ground: Ground::of(site, code),
            roof,
            code,
        }
    }

    // The wall that a roof of kind 6 or 10 stands at.
    fn wall(&self, roof: AbuttingRoof) -> Wall {
        Wall {
            roof,
            national: self.national,
        }
    }

    // How many segments the arrangement has.
    pub fn segment_count(&self) -> usize
        ensures { result ≤ 32 }
    {
        let base = persistent(self.code);
        match &self.roof.shape {
            Shape::Monopitch(_) => 1,
            Shape::Pitched { .. } => 2,
            Shape::MultiSpan { .. } if 30 < self.code => DRIFT_SEGMENTS,
            Shape::MultiSpan { count, .. } => slope_count(*count),
            Shape::Cylindrical(arch) => arch_count(*arch, base),
            Shape::Abutting(roof) => self.wall(*roof).count(base),
            Shape::Projection(roof) => projection_count(*roof),
            Shape::Obstructed(by) => obstruction_count(*by),
        }
    }

    // The segment at an index.
    pub fn segment(&self, i: usize) -> Segment
        requires { i < 32 }
    {
        let base = persistent(self.code);
        let spans = &self.roof.spans;
        let sk = self.ground.sk;
        match &self.roof.shape {
            Shape::Monopitch(slope) => on_monopitch(*slope),
            Shape::Pitched { left, .. } if i == 0 => on_left(*left, base),
            Shape::Pitched { left, right } => on_right(*left, *right, base),
            Shape::MultiSpan { count, .. } if 30 < self.code => {
                in_drift(spans, slope_count(*count), self.code, sk, i)
            }
            Shape::MultiSpan { count, .. } => on_spans(spans, slope_count(*count), base, i),
            Shape::Cylindrical(arch) => {
                on_cylinder(*arch, Ratio::new(self.national.arch, 100), base, i)
            }
            Shape::Abutting(roof) if base == 2 && i == 0 => self.wall(*roof).drift(sk),
            Shape::Abutting(roof) => self.wall(*roof).beyond(base),
            Shape::Projection(roof) => around_projection(*roof, sk, i),
            Shape::Obstructed(by) => at_obstruction(*by, sk, i),
        }
    }

    // The segment at an index, where it holds the station.
    fn held(&self, i: usize, station: u32) -> Option<Segment>
        requires { i < 32 }
    {
        let segment = self.segment(i);
        segment.holds(station).then_some(segment)
    }

    // The greatest load over the segments that hold the station, worked in parts of a N/m².
    pub fn load_read(&self, station: u32, parts: u32) -> u32 {
        (0..self.segment_count())
            .filter_map(|i| self.held(i, station))
            .map(|segment| self.ground.load_on(&segment, station, parts))
            .max()
            .unwrap_or(0)
    }

    // Whether a load is so many thousandths or more above the exact load at a station, the greater at a shared position.
    pub fn above_exact(&self, station: u32, load: u32, thousandths: u32) -> bool {
        (0..self.segment_count())
            .filter_map(|i| self.held(i, station))
            .all(|segment| {
                self.ground
                    .above_exact(&segment, station, load, thousandths)
            })
    }
}
