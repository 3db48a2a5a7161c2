// The one place where a sheet becomes figures: the sheet's site, the national figures that its job uses, and an item's roof.
#![tactic(auto)]

ghost use Rattle.std.specs.Prelude.{◌≡◌, ◌<◌};
ghost use Rattle.figures.specs.RoofRules.{roof_refusal};
ghost use Rattle.figures.specs.SiteRules.{site_refusal};
ghost use Rattle.figures.specs.Slopes.{AcceptedShape};
ghost use Rattle.pairs.specs.Pairs.{PartIn};
ghost use Rattle.sheet.specs.Sheet.{ItemIn, ItemOf};
ghost use Rattle.stepped_roofs.specs.Stepped.{upper_shape, stepped_shape};
ghost use Rattle.upper_items.specs.Uppers.{item_at};
ghost use Rattle.sheet_figures.specs.Find.{sheet_site, sheet_roof, found_of, found_in, found, found_means};

use figures::{AcceptedFigures, LowerRoof, National, Roof, Shape, Site, Spans};
use items::{Item, content_of, spans_in};
use map_sites::site_from;
use pairs::part_at;
use sets_in_use::figures_for;
use sheet::{Caller, Refused, Sheet};
use stepped_roofs::{stepped_shape, upper_shape};

// What a sheet has at an index, with the national figures that its job uses: its site, or a roof at the site.
#[derive(Clone, Copy)]
pub enum Found {
    AtSite { national: National, site: Site },
    AtRoof(AcceptedFigures),
}

// The site of a sheet, of any bytes whose first item lies in them and breaks no rule. A map site has its ground load from there.
pub fn site_in(s: &[u8]) -> Site
    requires { ItemIn s.now 0 }
    ensures { (result ≡ sheet_site s.now) × (site_refusal result ≡ 0) }
{
    let Ok(item) = content_of(part_at(s, 0)) else {
        unreachable!();
    };
    let Item::SiteItem(fields) = item else {
        unreachable!();
    };
    site_from(fields)
}

// The site of an accepted sheet, which is its first item.
pub fn site_of(sheet: Sheet) -> Site
    ensures { (result ≡ sheet_site sheet.entry.items.sheet.now) × (site_refusal result ≡ 0) }
{
    site_in(sheet.items.bytes())
}

// The shape of a lower roof by its upper item, which may stand above it: it is no item's own shape, so no type of an item keeps it.
fn shape_below(s: &[u8], lower: LowerRoof) -> Shape
    requires { PartIn s.now lower.upper × AcceptedShape (upper_shape (item_at s.now lower.upper)) }
    ensures { result ≡ stepped_shape lower (upper_shape (item_at s.now lower.upper)) }
{
    let above = content_of(part_at(s, usize::from(lower.upper)));
    stepped_shape(lower, upper_shape(&above))
}

// The roof of a later item, of any bytes as a sheet that is accepted with some store under some ceiling.
pub fn roof_in(s: &[u8], i: usize) -> Roof
    requires { ItemOf s.now i × (0 < i) }
    ensures { (result ≡ sheet_roof s.now i) × (roof_refusal result ≡ 0) }
{
    let p = part_at(s, i);
    let Ok(item) = content_of(p) else {
        unreachable!();
    };
    if let Item::LowerItem(lower) = item {
        return Roof {
            shape: shape_below(s, lower),
            spans: Spans::none(),
        };
    }
    let Item::RoofItem(shape) = item else {
        unreachable!();
    };
    Roof {
        shape,
        spans: spans_in(p, shape),
    }
}

// The roof of a later item of an accepted sheet.
pub fn roof_of(sheet: Sheet, i: usize) -> Roof
    requires { (0 < i) × (i < sheet.items.count) }
    ensures { (result ≡ sheet_roof sheet.entry.items.sheet.now i) × (roof_refusal result ≡ 0) }
{
    roof_in(sheet.items.bytes(), i)
}

// What an accepted sheet has at an index. The set in use is found here, and once.
fn found_in(sheet: Sheet, i: usize) -> Found
    requires { i < sheet.items.count }
    ensures { found_of result ≡ found_in sheet.entry.store.numbers.now sheet.entry.items.sheet.now i }
{
    let site = site_of(sheet);
    let national = figures_for(sheet.store, site.day);
    if i == 0 {
        return Found::AtSite { national, site };
    }
    Found::AtRoof(AcceptedFigures {
        national,
        site,
        roof: roof_of(sheet, i),
    })
}

// What any bytes as a sheet have at an index, read with any numbers as a store: the national figures in use, the sheet's site and the
// item's roof, which the site's index has none of; or the first broken rule.
pub fn find(store: &[u32], s: &[u8], index: usize) -> Result<Found, Refused>
    ensures { found_means result ≡ found store.now s.now index }
{
    let sheet = Sheet::read(store, s, Caller::Terminal)?;
    sheet.pair(index)?;
    Ok(found_in(sheet, index))
}
