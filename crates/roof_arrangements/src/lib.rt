// The arrangements of a roof under snow, of accepted figures: the segments of one code, written into a slice that the caller lends, all
// of them or one by its index.
#![tactic(auto)]

ghost use Rattle.std.specs.Prelude.{◌≡◌, length, ◌≤◌, IfOk};
ghost use Rattle.standard.specs.Answers.{result_means, make_in, made_slice, segment_count_in, segment_in, segment_slice};
ghost use Rattle.standard.specs.Arrangements.{stretch};

use figures::{AcceptedFigures, Refusal};
use segments::Arrangement;
use written_segments::{numbers_at, write};

// Makes the arrangement of a code of accepted figures, where the roof has it and the slice has room for it: its segments at the front of
// the slice, four numbers each. The answer is how many there are. For the crates above, which have the national figures in use.
#[tactic(auto, using(std::proofs::lemmas::Bool::Decides::nat_tests), unfolding(standard::specs::Answers::make_in, standard::specs::Answers::after_code, standard::specs::Answers::room_answer))]
pub fn make_in(figures: &AcceptedFigures, code: u8, out: &mut [u32]) -> Result<usize, Refusal>
    ensures answer { result_means result ≡ make_in figures.now.national figures.now.site figures.now.roof code (length out.old) }
    ensures written { let f = figures.now in out.new ≡ made_slice (result_means result) (stretch f.national f.site f.roof code) out.old }
    ensures few { IfOk result (λ n. n ≤ 32) }
{
    let arrangement = Arrangement::find(figures, code)?;
    let n = arrangement.count();
    if out.len() < 4 * n {
        return Err(Refusal::Slice);
    }
    write(arrangement, out);
    Ok(n)
}

// The number of segments of an arrangement, where the roof has it.
#[tactic(auto, unfolding(standard::specs::Answers::segment_count_in, standard::specs::Answers::after_code))]
pub fn segment_count_in(figures: &AcceptedFigures, code: u8) -> Result<usize, Refusal>
    ensures answer { result_means result ≡ segment_count_in figures.now.national figures.now.site figures.now.roof code }
    ensures few { IfOk result (λ n. n ≤ 32) }
{
    Ok(Arrangement::find(figures, code)?.count())
}

// One segment of an arrangement by its index, where the roof has it: its four numbers at the front of the slice. The answer is how many
// numbers these are. No other segment is kept.
#[tactic(auto, using(std::proofs::lemmas::Bool::Decides::nat_tests), unfolding(standard::specs::Answers::segment_in, standard::specs::Answers::after_code, standard::specs::Answers::index_answer))]
pub fn segment_in(
    figures: &AcceptedFigures,
    code: u8,
    index: usize,
    out: &mut [u32],
) -> Result<usize, Refusal>
    ensures answer { let f = figures.now in result_means result ≡ segment_in f.national f.site f.roof code index (length out.old) }
    ensures written { let f = figures.now in out.new ≡ segment_slice (result_means result) (stretch f.national f.site f.roof code) index out.old }
    ensures four { IfOk result (λ n. n ≡ 4) }
{
    let arrangement = Arrangement::find(figures, code)?;
    if arrangement.count() <= index {
        return Err(Refusal::PastTheEnd);
    }
    let Some(four) = out.first_chunk_mut() else {
        return Err(Refusal::Slice);
    };
    *four = numbers_at(&arrangement, index);
    Ok(four.len())
}
