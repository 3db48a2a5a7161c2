// The arrangements of a roof under snow: the segments of one code, written into a slice that the caller lends, all of them or one by its
// index, and how many they are. The calls take any figures.
#![tactic(auto)]

ghost use Rattle.std.specs.Prelude.{◌≡◌, length, ◌≤◌, IfOk};
ghost use Rattle.standard.specs.Answers.{result_means, national_for, make_answer, made_slice, segment_count_answer, segment_answer, segment_slice};
ghost use Rattle.standard.specs.Arrangements.{stretch};

use figures::{Refusal, Roof, Site};
use roof_arrangements::{make_in, segment_count_in, segment_in};

// Makes the arrangement of a code, with the national figures that the site's job uses: its segments at the front of the slice, four
// numbers each. The answer is how many there are; a refusal alters nothing. Apart from reading a load, which makes another call.
#[tactic(auto, unfolding(standard::specs::Answers::make_answer, standard::specs::Answers::after_rules))]
pub fn make(
    store: &[u32],
    site: Site,
    roof: Roof,
    code: u8,
    out: &mut [u32],
) -> Result<usize, Refusal>
    ensures answer { result_means result ≡ make_answer store.now site roof code (length out.old) }
    ensures written { out.new ≡ made_slice (result_means result) (stretch (national_for store.now site) site roof code) out.old }
    ensures few { IfOk result (λ n. n ≤ 32) }
{
    let figures = figure_rules::accept(store, site, roof)?;
    make_in(&figures, code, out)
}

// The number of segments of the arrangement of a code, known before any is asked for; or the first broken rule.
#[tactic(auto, unfolding(standard::specs::Answers::segment_count_answer, standard::specs::Answers::after_rules))]
pub fn segment_count(store: &[u32], site: Site, roof: Roof, code: u8) -> Result<usize, Refusal>
    ensures answer { result_means result ≡ segment_count_answer store.now site roof code }
    ensures few { IfOk result (λ n. n ≤ 32) }
{
    let figures = figure_rules::accept(store, site, roof)?;
    segment_count_in(&figures, code)
}

// One segment of the arrangement of a code by its index: its four numbers at the front of the slice. The answer is how many numbers these
// are; a refusal alters nothing.
#[tactic(auto, unfolding(standard::specs::Answers::segment_answer, standard::specs::Answers::after_rules))]
pub fn segment(
    store: &[u32],
    site: Site,
    roof: Roof,
    code: u8,
    index: usize,
    out: &mut [u32],
) -> Result<usize, Refusal>
    ensures answer { result_means result ≡ segment_answer store.now site roof code index (length out.old) }
    ensures written { out.new ≡ segment_slice (result_means result) (stretch (national_for store.now site) site roof code) index out.old }
    ensures four { IfOk result (λ n. n ≡ 4) }
{
    let figures = figure_rules::accept(store, site, roof)?;
    segment_in(&figures, code, index, out)
}
