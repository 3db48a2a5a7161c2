// The items of a roof that has no spans beside it, kinds 2, 3, 5, 6, 7 and 10 to 12.
#![tactic(auto, unfolding(crate::specs::RoofItems::monopitch_item, crate::specs::RoofItems::pitched_item, crate::specs::RoofItems::cylindrical_item, crate::specs::RoofItems::abutting_item, crate::specs::RoofItems::projection_item, crate::specs::RoofItems::lower_item, crate::specs::RoofItems::parapet_item, crate::specs::RoofItems::small_projection_item))]

ghost use Rattle.std.specs.Prelude.{◌≡◌, ◌+◌, ◌<◌, ◌≤◌, length};
ghost use Rattle.roof_items.specs.RoofItems.{guarded_at, monopitch_item, pitched_item, cylindrical_item, abutting_item, projection_item, lower_at, lower_item, parapet_item, small_projection_item};

use figures::{
    AbuttingRoof, Arch, GuardedSlope, LowerRoof, Obstruction, ProjectionRoof, Refusal, Shape,
};
use item_forms::{Item, check_length, slope_at};
use little_endian::u32_at;

// A slope whose pitch, width and guard stand at three bytes.
fn guarded_at(p: &[u8], pitch: usize, width: usize, guard: usize) -> GuardedSlope
    requires { (pitch + 2 ≤ length p.now) × (width + 4 ≤ length p.now) × (guard < length p.now) }
    ensures { result ≡ guarded_at p.now pitch width guard }
{
    GuardedSlope {
        slope: slope_at(p, pitch, width),
        guard: p[guard],
    }
}

// A monopitch roof.
pub fn monopitch_item(p: &[u8]) -> Result<Item, Refusal>
    ensures { result ≡ monopitch_item p.now }
{
    check_length(p, 8)?;
    Ok(Item::RoofItem(Shape::Monopitch(guarded_at(p, 1, 4, 3))))
}

// A pitched roof.
pub fn pitched_item(p: &[u8]) -> Result<Item, Refusal>
    ensures { result ≡ pitched_item p.now }
{
    check_length(p, 15)?;
    Ok(Item::RoofItem(Shape::Pitched {
        left: guarded_at(p, 1, 7, 5),
        right: guarded_at(p, 3, 11, 6),
    }))
}

// A cylindrical roof.
pub fn cylindrical_item(p: &[u8]) -> Result<Item, Refusal>
    ensures { result ≡ cylindrical_item p.now }
{
    check_length(p, 9)?;
    Ok(Item::RoofItem(Shape::Cylindrical(Arch {
        rise: u32_at(p, 1),
        span: u32_at(p, 5),
    })))
}

// A lower flat roof at a taller one.
pub fn abutting_item(p: &[u8]) -> Result<Item, Refusal>
    ensures { result ≡ abutting_item p.now }
{
    check_length(p, 20)?;
    Ok(Item::RoofItem(Shape::Abutting(AbuttingRoof {
        b1: u32_at(p, 1),
        b2: u32_at(p, 5),
        h: u32_at(p, 9),
        slope: guarded_at(p, 17, 13, 19),
        stepped: false,
    })))
}

// A projection on a flat roof.
pub fn projection_item(p: &[u8]) -> Result<Item, Refusal>
    ensures { result ≡ projection_item p.now }
{
    check_length(p, 13)?;
    Ok(Item::RoofItem(Shape::Projection(ProjectionRoof {
        h: u32_at(p, 1),
        left: u32_at(p, 5),
        right: u32_at(p, 9),
    })))
}

// The length of a lower roof's item.
pub const LOWER_LENGTH: usize = 11;

// The fields of a lower roof that takes its upper figures from another item of its sheet.
pub fn lower_at(p: &[u8]) -> LowerRoof
    requires { length p.now ≡ 11 }
    ensures { result ≡ lower_at p.now }
{
    LowerRoof {
        b2: u32_at(p, 1),
        h: u32_at(p, 5),
        upper: p[9],
        side: p[10],
    }
}

// Its item.
pub fn lower_item(p: &[u8]) -> Result<Item, Refusal>
    ensures { result ≡ lower_item p.now }
{
    check_length(p, LOWER_LENGTH)?;
    Ok(Item::LowerItem(lower_at(p)))
}

// A parapet.
pub fn parapet_item(p: &[u8]) -> Result<Item, Refusal>
    ensures { result ≡ parapet_item p.now }
{
    check_length(p, 13)?;
    Ok(Item::RoofItem(Shape::Obstructed(Obstruction::Parapet {
        h: u32_at(p, 1),
        b1: u32_at(p, 5),
        b2: u32_at(p, 9),
    })))
}

// A projection up to 1 m high.
pub fn small_projection_item(p: &[u8]) -> Result<Item, Refusal>
    ensures { result ≡ small_projection_item p.now }
{
    check_length(p, 17)?;
    Ok(Item::RoofItem(Shape::Obstructed(Obstruction::SmallProjection {
        h1: u32_at(p, 1),
        h2: u32_at(p, 5),
        b1: u32_at(p, 9),
        b2: u32_at(p, 13),
    })))
}
