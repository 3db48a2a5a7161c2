// Local forces, over the whole load S of a slope or the larger of two.
use crate::loads::{Ground, WHOLE};
use figures::{GuardedSlope, Roof, Shape, Site};
use second_numbers::{Wide, sine};
use second_shapes::on_monopitch;

// The slope of a number: kind 2 has slope 1, kind 3 slopes 1 and 2, other kinds none. The library's own plays no part here.
fn slope_of(shape: Shape, number: u8) -> Option<GuardedSlope> {
    match (shape, number) {
        (Shape::Monopitch(slope), 1) => Some(slope),
        (Shape::Pitched { left, .. }, 1) => Some(left),
        (Shape::Pitched { right, .. }, 2) => Some(right),
        _ => None,
    }
}

// S: the load of code 1 on the slope, as on a roof of that slope alone. By A4 "S stays whole"; no national figure plays a part.
fn slope_load(site: Site, slope: GuardedSlope) -> u32 {
    let segment = on_monopitch(slope);
    Ground::of(site, 1).load_on(&segment, segment.start, WHOLE)
}

// By A5 an eave has the larger of the two slopes' S; a roof of one slope has its own.
fn eave_load(site: Site, shape: Shape) -> Option<u32> {
    (1..=2)
        .filter_map(|number| slope_of(shape, number))
        .map(|slope| slope_load(site, slope))
        .max()
}

// The overhang at a slope's eave, above 800 m: the smaller of 3S and S³/3,000,000, rounded up.
pub fn overhang(site: Site, roof: &Roof, number: u8) -> Option<u32> {
    if site.altitude <= 800 {
        return None;
    }
    slope_of(roof.shape, number)?;
    let s = eave_load(site, roof.shape)?;
    let cube = (Wide::from(s) * s * s).div_ceil(Wide::from(3_000_000));
    Some(cube.min(s.saturating_mul(3)))
}

// The force at a slope's guard: S × width/1,000 × sine, with the sine in millionths, rounded up.
pub fn guard_force(site: Site, roof: &Roof, number: u8) -> Option<u32> {
    let guarded = slope_of(roof.shape, number).filter(|guarded| guarded.guard == 1)?;
    let slope = guarded.slope;
    let force = Wide::from(slope_load(site, guarded)) * slope.width * sine(slope.pitch);
    Some(force.div_ceil(Wide::from(1_000_000_000)))
}
