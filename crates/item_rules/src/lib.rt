// The first rule that an item breaks in its place: the refusal of its form, 5, then the value rules.
#![tactic(auto)]

ghost use Rattle.std.specs.Prelude.{◌≡◌};
ghost use Rattle.figures.specs.Refusal.{number_in};
ghost use Rattle.item_rules.specs.Rules.{job_refusal, rule_of, LaterRule};

use figures::{Refusal, SiteData};
use items::{Item, content_of, spans_in};
use lower_rules::check_lower;
use map_sites::check_site_data;
use national_sets::Store;
use roof_rules::check_shape;
use sets_in_use::check_day;

// The first rule that a site breaks: its own values, then its day.
#[tactic(auto, unfolding(crate::specs::Rules::job_refusal, figures::specs::Rules::first_of))]
fn check_job(store: Store, fields: SiteData) -> Result<(), Refusal>
    ensures { number_in result ≡ job_refusal store.entry.numbers.now fields }
{
    check_site_data(fields)?;
    check_day(store, fields.day)
}

// The first rule that the first item breaks.
fn check_first(store: Store, p: &[u8]) -> Result<(), Refusal>
    ensures { number_in result ≡ rule_of store.entry.numbers.now 0 p.now }
{
    let item = content_of(p)?;
    let Item::SiteItem(fields) = item else {
        return Err(Refusal::SitePlace);
    };
    check_job(store, fields)
}

// The first rule that a later item breaks.
fn check_later(p: &[u8]) -> Result<(), Refusal>
    ensures { LaterRule (number_in result) p.now }
{
    let item = content_of(p)?;
    if let Item::LowerItem(lower) = item {
        return check_lower(lower);
    }
    let Item::RoofItem(shape) = item else {
        return Err(Refusal::SitePlace);
    };
    check_shape(shape, &spans_in(p, shape))
}

// The first rule that the item at an index breaks.
pub fn check_item(store: Store, index: usize, p: &[u8]) -> Result<(), Refusal>
    ensures { number_in result ≡ rule_of store.entry.numbers.now index p.now }
{
    if index == 0 {
        return check_first(store, p);
    }
    check_later(p)
}
