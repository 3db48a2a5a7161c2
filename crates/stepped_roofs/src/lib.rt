// The figures of a lower roof that takes those of its upper roof from another item, kind 10. They are found here alone.
#![tactic(auto)]

ghost use Rattle.std.specs.Prelude.{◌≡◌, ◌≤◌};
ghost use Rattle.figures.specs.Slopes.{slope_at, AcceptedShape};
ghost use Rattle.stepped_roofs.specs.Stepped.{is_upper, slope_width, whole_width, adjacent_slope, flat_slope, flat_roof, upper_shape, stepped_shape};

use figures::{AbuttingRoof, GuardedSlope, LowerRoof, Refusal, Shape, Slope};
use item_forms::Item;
use roof_slopes::slope_of;

// Whether another roof may stand below an item's, which may be refused for its form.
pub fn is_upper(item: &Result<Item, Refusal>) -> bool
    ensures { result ≡ is_upper item.now }
{
    match item {
        Ok(Item::RoofItem(shape)) => matches!(shape, Shape::Monopitch(_) | Shape::Pitched { .. }),
        Ok(Item::LowerItem(_)) => true,
        Ok(Item::SiteItem(_)) | Err(_) => false,
    }
}

// The width of a slope by its number, 0 where the roof has none of that number: 0 adds nothing. What is asked of an upper shape is no
// item's own shape, so no type of an item keeps it.
fn slope_width(shape: Shape, number: u8) -> u32
    requires { AcceptedShape shape }
    ensures { (result ≡ slope_width (slope_at shape number)) × (result ≤ 100000) }
{
    slope_of(shape, number).map_or(0, |guarded| guarded.slope.width)
}

// The whole width of an upper roof.
#[tactic(auto, unfolding(crate::specs::Stepped::whole_width))]
fn whole_width(shape: Shape) -> u32
    requires { AcceptedShape shape }
    ensures { result ≡ whole_width shape }
{
    slope_width(shape, 1) + slope_width(shape, 2)
}

// The slope of an upper roof at a side, 0 left and 1 right. A roof of one slope has it at either side.
#[tactic(auto, unfolding(crate::specs::Stepped::adjacent_slope))]
fn adjacent_slope(shape: Shape, side: u8) -> Option<GuardedSlope>
    ensures { result ≡ adjacent_slope shape side }
{
    match slope_of(shape, 2) {
        Some(right) if side == 1 => Some(right),
        _ => slope_of(shape, 1),
    }
}

// A slope of a flat roof, without a guard.
fn flat_slope(width: u32) -> GuardedSlope
    ensures { result ≡ flat_slope width }
{
    GuardedSlope {
        slope: Slope { pitch: 0, width },
        guard: 0,
    }
}

// The upper roof that an item is. Above another, a lower roof is a flat roof of one slope. The definition has a shape for a site too, and
// for an item that is refused for its form, which no roof stands below.
pub fn upper_shape(item: &Result<Item, Refusal>) -> Shape
    ensures { result ≡ upper_shape item.now }
{
    match item {
        Ok(Item::RoofItem(shape)) => *shape,
        Ok(Item::LowerItem(lower)) => Shape::Monopitch(flat_slope(lower.b2)),
        Ok(Item::SiteItem(_)) | Err(_) => Shape::Monopitch(flat_slope(0)),
    }
}

// The shape of a lower roof at its upper roof.
#[tactic(auto, unfolding(crate::specs::Stepped::stepped_shape))]
pub fn stepped_shape(lower: LowerRoof, upper: Shape) -> Shape
    requires { AcceptedShape upper }
    ensures { result ≡ stepped_shape lower upper }
{
    Shape::Abutting(AbuttingRoof {
        b1: whole_width(upper),
        b2: lower.b2,
        h: lower.h,
        slope: adjacent_slope(upper, lower.side).unwrap_or(flat_slope(0)),
        stepped: true,
    })
}
