// Figures that no rule on values refuses: 18, the site's 6, 7 and 19, the roof's 8, 9 and 10.
#![tactic(auto)]

ghost use Rattle.std.specs.Prelude.{◌≡◌, IfOk};
ghost use Rattle.figures.specs.Bounds.{FiguresIn};
ghost use Rattle.figures.specs.Refusal.{number_in};
ghost use Rattle.figures.specs.Refusals.{figures_refusal};
ghost use Rattle.figures.specs.Store.{figures_in_use};

use figures::{AcceptedFigures, National, Refusal, Roof, Site};
use national_sets::Store;
use roof_rules::check_roof;
use sets_in_use::{check_day, figures_for};
use site_rules::check_site;

// The national figures that the site's job uses, or the first rule that the store, the site or the roof breaks. The store is checked
// here, and once.
#[tactic(auto, unfolding(figures::specs::Rules::first_of))]
fn check(store: &[u32], site: Site, roof: &Roof) -> Result<National, Refusal>
    ensures refusal { number_in result ≡ figures_refusal store.now site roof.now }
    ensures accepted { IfOk result (λ n. (n ≡ figures_in_use store.now site.day) × FiguresIn n site roof.now) }
{
    let store = Store::read(store)?;
    check_site(site)?;
    check_day(store, site.day)?;
    check_roof(roof)?;
    let national = figures_for(store, site.day);
    Ok(national)
}

// A site and a roof with the national figures of the site's job, or the first broken rule. It is apart from the rules, so that a roof is
// copied once.
pub fn accept(store: &[u32], site: Site, roof: Roof) -> Result<AcceptedFigures, Refusal>
    ensures refusal { number_in result ≡ figures_refusal store.now site roof }
    ensures accepted { IfOk result (λ f. (f.site ≡ site) × (f.roof ≡ roof) × (f.national ≡ figures_in_use store.now site.day)) }
{
    let national = check(store, site, &roof)?;
    Ok(AcceptedFigures {
        national,
        site,
        roof,
    })
}
