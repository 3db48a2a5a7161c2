// The site that an item's data are: a map site has the ground load of its place, and from here on no call knows which kind it
// was.
ghost use Rattle.std.specs.Prelude.{◌≡◌, IfOk};
ghost use Rattle.figures.specs.Refusal.{number_in};
ghost use Rattle.figures.specs.SiteRules.{site_refusal};
ghost use Rattle.figures.specs.declared.site.Ground.TheVariants.{Given, OnMap};
ghost use Rattle.ground_loads.specs.Map.{ground_load};
ghost use Rattle.map_sites.specs.Sites.{sk_of, site_with, site_from, refusal_by, site_data_refusal};

use crate::map::{ground_load, sk_on_map};
use figures::{Ground, Refusal, Site, SiteData};
use site_rules::{check_site, other_fields};

// The site with a ground load and the other fields of an item.
fn site_with(sk: u32, fields: SiteData) -> Site
    ensures { result ≡ site_with sk fields }
{
    Site {
        sk,
        ce: fields.ce,
        ct: fields.ct,
        cesl: fields.cesl,
        situation: fields.situation,
        altitude: fields.altitude,
        day: fields.day,
    }
}

// A site with its ground load, or the first rule that it breaks: 6, 7.
fn given_site(sk: u32, fields: SiteData) -> Result<Site, Refusal>
    ensures number { number_in result ≡ refusal_by (Given sk) fields }
    ensures site { IfOk result (λ site. (site ≡ site_with sk fields) × (site_refusal site ≡ 0)) }
{
    let site = site_with(sk, fields);
    check_site(site)?;
    Ok(site)
}

// A map site, or the first rule that it breaks: 6, 7, 14, 15.
#[tactic(auto, using(crate::proofs::Kept::map_sound), unfolding(figures::specs::Rules::first_of))]
fn map_site(region: u8, zone: u8, fields: SiteData) -> Result<Site, Refusal>
    ensures number { number_in result ≡ refusal_by (OnMap region zone) fields }
    ensures site { IfOk result (λ site. (site ≡ site_with (ground_load region zone fields.altitude) fields) × (site_refusal site ≡ 0)) }
{
    if !other_fields(fields.ce, fields.ct, fields.cesl, fields.situation) {
        return Err(Refusal::SiteField);
    }
    let sk = ground_load(region, zone, fields.altitude)?;
    Ok(site_with(sk, fields))
}

// The site of an item, or the first rule that it breaks by its own values.
#[tactic(auto, unfolding(crate::specs::Sites::site_data_refusal))]
pub fn check_site_data(fields: SiteData) -> Result<Site, Refusal>
    ensures number { number_in result ≡ site_data_refusal fields }
    ensures site { IfOk result (λ site. (site ≡ site_from fields) × (site_refusal site ≡ 0)) }
{
    match fields.ground {
        Ground::Given(sk) => given_site(sk, fields),
        Ground::OnMap { region, zone } => map_site(region, zone, fields),
    }
}

// The ground load of an item's site that breaks no rule.
fn sk_of(fields: SiteData) -> u32
    requires { site_data_refusal fields ≡ 0 }
    ensures { result ≡ sk_of fields.ground fields.altitude }
{
    match fields.ground {
        Ground::Given(sk) => sk,
        Ground::OnMap { region, zone } => sk_on_map(region, zone, fields.altitude),
    }
}

// The site of an item that breaks no rule. It tests none of them again, and can't fail.
pub fn site_from(fields: SiteData) -> Site
    requires { site_data_refusal fields ≡ 0 }
    ensures { (result ≡ site_from fields) × (site_refusal result ≡ 0) }
{
    site_with(sk_of(fields), fields)
}
