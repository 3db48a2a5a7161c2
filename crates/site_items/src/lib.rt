// The items of a site, kinds 1 and 8.
#![tactic(auto, unfolding(crate::specs::SiteItems::day_at, crate::specs::SiteItems::site_item, crate::specs::SiteItems::map_site_item))]

ghost use Rattle.std.specs.Prelude.{◌≡◌, ◌+◌, ◌≤◌, true, false, MatchResult, length};
ghost use Rattle.site_items.specs.SiteItems.{day_at, site_length, site_data_at, site_item, map_site_item};

use figures::{Ground, Refusal, SiteData};
use item_forms::Item;
use little_endian::{u16_at, u32_at};

// The bytes of a site of either kind without its day.
const SITE_BYTES: usize = 14;

const MAP_SITE_BYTES: usize = 12;

// The day of a site whose own bytes end at a byte, where it has one. A site with more or fewer bytes is refused.
fn day_at(p: &[u8], own: usize) -> Result<Option<u16>, Refusal>
    requires { own ≤ 14 }
    ensures { MatchResult result (λ day. (day ≡ day_at p.now own) × (site_length own (length p.now) ≡ true) × (own ≤ length p.now))
        (λ e. (e ≡ Refusal.ItemLength) × (site_length own (length p.now) ≡ false)) }
{
    if p.len() == own {
        Ok(None)
    } else if p.len() == own + 2 {
        Ok(Some(u16_at(p, own)))
    } else {
        Err(Refusal::ItemLength)
    }
}

// A site with its ground load and its day, whose fields from Ce on begin at a byte.
fn site_data_at(p: &[u8], at: usize, ground: Ground, day: Option<u16>) -> SiteData
    requires { (at + 9 ≤ length p.now) × (at ≤ 5) }
    ensures { day ≡ day_at p.now (at + 9) → result ≡ site_data_at p.now at ground }
{
    SiteData {
        ground,
        ce: u16_at(p, at),
        ct: u16_at(p, at + 2),
        cesl: u16_at(p, at + 4),
        situation: p[at + 6],
        altitude: u16_at(p, at + 7),
        day,
    }
}

// A site with its sk.
pub fn site_item(p: &[u8]) -> Result<Item, Refusal>
    ensures { result ≡ site_item p.now }
{
    let day = day_at(p, SITE_BYTES)?;
    let ground = Ground::Given(u32_at(p, 1));
    Ok(Item::SiteItem(site_data_at(p, 5, ground, day)))
}

// A map site: its region and its zone stand in place of sk.
pub fn map_site_item(p: &[u8]) -> Result<Item, Refusal>
    ensures { result ≡ map_site_item p.now }
{
    let day = day_at(p, MAP_SITE_BYTES)?;
    let ground = Ground::OnMap {
        region: p[1],
        zone: p[2],
    };
    Ok(Item::SiteItem(site_data_at(p, 3, ground, day)))
}
