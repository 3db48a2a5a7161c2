// What the calls on an item of a sheet answer, by what was found there. No rule that the finding passed is tested again.
#![tactic(auto)]

ghost use Rattle.std.specs.Prelude.{◌≡◌, ◌≤◌, length, IfOk, MatchResult};
ghost use Rattle.figures.specs.Refusal.{number_of};
ghost use Rattle.pairs.specs.Pairs.{accepted, refused, answer_means};
ghost use Rattle.sheet_figures.specs.Find.{figures_of, found_means};
ghost use Rattle.item_answers.specs.Calls.{roof_found, make_by, slice_after, segment_count_by, segment_by, segment_after, load_by, overhang_by, guard_by};

use figures::{AcceptedFigures, Refusal};
use local_forces::{guard_force_at as guard_force, overhang_at as overhang};
use pairs::Refused;
use roof_arrangements::{make_in, segment_count_in, segment_in};
use roof_readings::load_in;
use sheet_figures::Found;

// The refusal of the site's item, which has no arrangement.
fn no_arrangement(item: usize) -> Refused
    ensures refusal { result.refusal ≡ Refusal.NoArrangement }
    ensures item { result.item ≡ item }
{
    Refused {
        refusal: Refusal::NoArrangement,
        item,
    }
}

// The figures of the roof that was found, for a call on an arrangement.
fn roof_of(found: &Result<Found, Refused>, item: usize) -> Result<&AcceptedFigures, Refused>
    ensures { let roof = roof_found (found_means found.now) item in
        MatchResult result (λ f. roof ≡ accepted (figures_of f.now)) (λ e. roof ≡ refused (number_of e.refusal) e.item) }
{
    match found {
        Ok(Found::AtRoof(figures)) => Ok(figures),
        Ok(Found::AtSite { .. }) => Err(no_arrangement(item)),
        Err(refused) => Err(*refused),
    }
}

// The count of segments of an arrangement, which are at the front of the slice; or a refusal.
pub fn make_at(
    found: Result<Found, Refused>,
    item: usize,
    code: u8,
    out: &mut [u32],
) -> Result<usize, Refused>
    ensures answer { answer_means result ≡ make_by (found_means found) item code (length out.old) }
    ensures written { out.new ≡ slice_after (found_means found) item code out.old }
    ensures few { IfOk result (λ n. n ≤ 32) }
{
    let figures = roof_of(&found, item)?;
    make_in(figures, code, out).map_err(|refusal| Refused { refusal, item })
}

// The count of segments of an arrangement, or a refusal. A call of its own for a board with little memory: what it needs is not on the
// stack while the sheet is read.
#[inline(never)]
pub fn segment_count_at(
    found: Result<Found, Refused>,
    item: usize,
    code: u8,
) -> Result<usize, Refused>
    ensures answer { answer_means result ≡ segment_count_by (found_means found) item code }
    ensures few { IfOk result (λ n. n ≤ 32) }
{
    let figures = roof_of(&found, item)?;
    segment_count_in(figures, code).map_err(|refusal| Refused { refusal, item })
}

// The count of numbers of one segment of an arrangement, which are at the front of the slice; or a refusal. A call of its own for the
// same reason.
#[inline(never)]
pub fn segment_at(
    found: Result<Found, Refused>,
    item: usize,
    code: u8,
    index: usize,
    out: &mut [u32],
) -> Result<usize, Refused>
    ensures answer { answer_means result ≡ segment_by (found_means found) item code index (length out.old) }
    ensures written { out.new ≡ segment_after (found_means found) item code index out.old }
    ensures four { IfOk result (λ n. n ≡ 4) }
{
    let figures = roof_of(&found, item)?;
    segment_in(figures, code, index, out).map_err(|refusal| Refused { refusal, item })
}

// The load at a station, or a refusal.
pub fn load_at(
    found: Result<Found, Refused>,
    item: usize,
    code: u8,
    station: u32,
) -> Result<u32, Refused>
    ensures { answer_means result ≡ load_by (found_means found) item code station }
{
    let figures = roof_of(&found, item)?;
    load_in(figures, code, station).map_err(|refusal| Refused { refusal, item })
}

// The overhang at a slope, none, or a refusal. The site has no forces. Apart from `guard_force_at`: each is the one call that it makes.
pub fn overhang_at(
    found: Result<Found, Refused>,
    item: usize,
    slope: u8,
) -> Result<Option<u32>, Refused>
    ensures { answer_means result ≡ overhang_by (found_means found) item slope }
{
    match found? {
        Found::AtRoof(figures) => Ok(overhang(figures.sited(), slope)),
        Found::AtSite { .. } => Ok(None),
    }
}

// The force at the guard of a slope, none, or a refusal. The site has no forces.
pub fn guard_force_at(
    found: Result<Found, Refused>,
    item: usize,
    slope: u8,
) -> Result<Option<u32>, Refused>
    ensures { answer_means result ≡ guard_by (found_means found) item slope }
{
    match found? {
        Found::AtRoof(figures) => Ok(guard_force(figures.sited(), slope)),
        Found::AtSite { .. } => Ok(None),
    }
}
