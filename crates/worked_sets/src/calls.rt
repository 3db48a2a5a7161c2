// What the calls on figures answer about a lower roof in code 2, with refusals by the documents' numbers.
use figures::{AbuttingRoof, GuardedSlope, Roof, Shape, Site, Slope, Spans};

// The code of the roof's load at the wall, which has every figure that a set gives to walls: document 01's number.
pub const CODE: u8 = 2;

// What stands in the slice before a call: no position and no load. `worked_roofs` has its own.
const BLANK: u32 = 4_000_000_001;

// A site with a job of a day, whose figures are in their ranges.
pub fn site_on(day: Option<u16>) -> Site {
    Site {
        sk: 1_000,
        ce: 100,
        ct: 100,
        cesl: 100,
        situation: 0,
        altitude: 1_000,
        day,
    }
}

// The same site with no ground load: 6 refuses it.
pub fn bare_site(day: Option<u16>) -> Site {
    Site {
        sk: 0,
        ..site_on(day)
    }
}

pub fn lower_roof() -> Roof {
    let slope = Slope {
        pitch: 200,
        width: 6_000,
    };
    let shape = Shape::Abutting(AbuttingRoof {
        b1: 10_000,
        b2: 20_000,
        h: 3_000,
        slope: GuardedSlope { slope, guard: 0 },
        stepped: false,
    });
    Roof {
        shape,
        spans: Spans::none(),
    }
}

// The load at the wall.
pub fn load(store: &[u32], site: Site) -> Result<u32, u8> {
    reading::load_at(store, site, lower_roof(), CODE, 0).map_err(u8::from)
}

// Whether every call refuses a site by a number, though the slice is too short and no slope is there, and the slice is as it was.
pub fn all_refuse(store: &[u32], site: Site, number: u8) -> bool {
    let roof = lower_roof();
    let mut out = [BLANK; 2];
    let made = arrangement::make(store, site, roof, CODE, &mut out);
    let eave = local_forces::overhang(store, site, roof, 1);
    let guard = local_forces::guard_force(store, site, roof, 1);
    made.map_err(u8::from) == Err(number)
        && out == [BLANK; 2]
        && load(store, site) == Err(number)
        && eave.map_err(u8::from) == Err(number)
        && guard.map_err(u8::from) == Err(number)
}
