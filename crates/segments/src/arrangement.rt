// One arrangement of accepted figures.
ghost use Rattle.std.specs.Prelude.{◌≡◌, ◌≤◌, ◌<◌, true, false, MatchResult};
ghost use Rattle.ramps.specs.Ramps.{ramp_of};
ghost use Rattle.segments.specs.Arranged.{Arranged};
ghost use Rattle.standard.specs.Arrangements.{exists, count, stretch, end_of};
ghost use Rattle.standard.specs.Stretch.{start_of};
ghost use Rattle.standard.specs.Units.{largest_position};

use crate::kinds::{count_in, end_in, ramp_in};
use code_rules::{factor, has_arrangement};
use codes::base_code;
use figures::{AcceptedFigures, Refusal};
use loads::Ground;
use ramps::Ramp;

// The arrangement of a code, with what is the same for each of its segments: the persistent code of the same shape, the factor on its
// loads, and how many segments there are.
#[derive(Clone, Copy)]
pub struct Arrangement<'a> {
    pub figures: &'a AcceptedFigures,
    pub code: u8,
    persistent: u8,
    ground: Ground,
    segments: usize,
    ghost arranged: { Arranged figures.now code persistent ground.factor ground.sk segments },
}

impl<'a> Arrangement<'a> {
    // The arrangement of any code.
    pub fn of(figures: &'a AcceptedFigures, code: u8) -> Arrangement<'a>
        ensures { (result.figures.now ≡ figures.now) × (result.code ≡ code) }
    {
        let persistent = base_code(code);
        let ground = Ground {
            factor: factor(figures.site, code),
            sk: u64::from(figures.site.sk),
        };
        Arrangement {
            figures,
            code,
            persistent,
            ground,
            segments: count_in(figures, persistent),
        }
    }

    // The arrangement of a code, where the roof has it in the site's situation.
    #[tactic(auto, unfolding(standard::specs::Arrangements::exists))]
    pub fn find(figures: &'a AcceptedFigures, code: u8) -> Result<Arrangement<'a>, Refusal>
        ensures { let has = exists figures.now.site figures.now.roof code in
            MatchResult result (λ a. (has ≡ true) × (a.figures.now ≡ figures.now) × (a.code ≡ code)) (λ e. (has ≡ false) × (e ≡ Refusal.NoArrangement)) }
    {
        if !has_arrangement(figures.site, figures.roof.shape, code) {
            return Err(Refusal::NoArrangement);
        }
        Ok(Arrangement::of(figures, code))
    }

    // The number of segments.
    pub fn count(&self) -> usize
        ensures { let f = self.now.figures.now in (result ≡ count f.national f.roof self.now.code) × (result ≤ 32) }
    {
        self.segments
    }

    // The ramp of the segment at an index, with its break loads.
    pub fn ramp(&self, i: usize) -> Ramp
        requires { i < count self.now.figures.now.national self.now.figures.now.roof self.now.code }
        ensures { let f = self.now.figures.now in result ≡ ramp_of (stretch f.national f.site f.roof self.now.code i) }
    {
        ramp_in(self.figures, self.persistent, self.ground, i)
    }

    // Where the segment at an index starts: the sum of the lengths before it. By a loop: a chain's sum would need a lemma that says the
    // same.
    pub fn start(&self, i: usize) -> u64
        requires { i ≤ count self.now.figures.now.national self.now.figures.now.roof self.now.code }
        ensures { let f = self.now.figures.now in (result ≡ start_of (stretch f.national f.site f.roof self.now.code) i) × (result ≤ largest_position) }
    {
        let mut start = 0;
        for before in 0..i {
            let ramp = self.ramp(before);
            start += ramp.extent;
        }
        start
    }

    // The roof's length in quarter millimetres.
    pub fn end(&self) -> u64
        ensures { result ≡ end_of self.now.figures.now.roof }
    {
        end_in(self.figures)
    }
}
