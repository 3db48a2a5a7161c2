// The load at a station of a roof under one arrangement. The call takes any figures.
#![tactic(auto)]

ghost use Rattle.std.specs.Prelude.{◌≡◌};
ghost use Rattle.roof_readings.specs.Reading.{distance_of};
ghost use Rattle.standard.specs.Answers.{result_means, national_for, load_answer};

use figures::{Refusal, Roof, Site};
use roof_readings::load_in;

// The load at a station in quarter millimetres from the roof's left end, with the national figures that the site's job uses; or the
// first broken rule.
#[tactic(auto, unfolding(standard::specs::Answers::load_answer, standard::specs::Answers::after_rules))]
pub fn load_at(
    store: &[u32],
    site: Site,
    roof: Roof,
    code: u8,
    station: u32,
) -> Result<u32, Refusal>
    ensures answer { result_means result ≡ load_answer store.now site roof code station }
    ensures distance { distance_of (national_for store.now site) site roof code station result }
{
    let figures = figure_rules::accept(store, site, roof)?;
    load_in(&figures, code, station)
}
