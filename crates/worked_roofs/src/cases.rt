// A roof at a site, in every code and at every slope.
use crate::forces::{compare_pitches, compare_slope};
use crate::given::Given;
use crate::made::Made;
use crate::refusals::{ExpectedRefusal, compare_beyond};
use crate::tally::Tally;
use crate::turned::{compare_turned, compare_turned_refusal};
use figures::National;
use second::LoadCase;
use second_sets::STORE_NUMBERS;
use stored_lines::Pitches;

// A code that the roof hasn't, and a job that no set has begun for. Expected refusals are the documents' numbers, as stored cases and the
// second calculation have them.
const NO_ARRANGEMENT: u8 = 13;

const NO_SET_BEGUN: u8 = 19;

// The numbers of a store and of one set more.
const LONGER_STORE: usize = STORE_NUMBERS + 6;

// The national figures that the job uses by the second calculation. A store may say that it has more sets than there is room for: there
// stand zeros.
fn figures_in_use(given: &Given<'_>) -> Option<National> {
    let mut numbers = [0; LONGER_STORE];
    for (place, number) in numbers.iter_mut().zip(given.store) {
        *place = *number;
    }
    second_sets::figures_on(&numbers, given.site.day)
}

impl Tally {
    // The job is refused by 19, or the roof is tried in every code, and at the slopes that a roof may have and two that no roof has.
    pub fn compare(&mut self, given: &Given<'_>) {
        let Some(national) = figures_in_use(given) else {
            let refusal = ExpectedRefusal {
                code: 2,
                other_code: 99,
                number: NO_SET_BEGUN,
            };
            self.compare_refused(given, refusal);
            return;
        };
        // The codes of documents 01 and 02, and some that no roof has.
        for code in (0..=4)
            .chain(10..=14)
            .chain(20..=21)
            .chain(30..=46)
            .chain([255])
        {
            self.compare_code(given, national, code);
        }
        for slope in 0..=3 {
            compare_slope(given, slope, &mut self.forces);
        }
    }

    fn compare_code(&mut self, given: &Given<'_>, national: National, code: u8) {
        if !second::exists(given.roof.shape, given.site.situation, code) {
            let refusal = ExpectedRefusal {
                code,
                other_code: code,
                number: NO_ARRANGEMENT,
            };
            refusal.compare(given, &mut self.refusals);
            return;
        }
        let expected = LoadCase::new(national, given.site, given.roof, code);
        let made = Made::new(given, code);
        self.arrangements.compare(!made.is_expected(&expected));
        self.segments = self
            .segments
            .saturating_add(expected.segment_count() as u64);
        self.drops.add_segments(&made, &expected);
        compare_beyond(given, &expected, &mut self.refusals);
        self.readings.add_segments(given, &expected);
        compare_turned(given, &expected, &mut self.turned);
        self.moved.add(given, &expected);
    }

    // Figures that every call refuses, also of the roof turned round.
    pub fn compare_refused(&mut self, given: &Given<'_>, refusal: ExpectedRefusal) {
        refusal.compare_every_call(given, &mut self.refusals);
        compare_turned_refusal(given, refusal, &mut self.turned);
    }

    // A guarded slope at a site, at many pitches.
    pub fn compare_pitches(&mut self, store: &[u32], pitches: &Pitches) {
        compare_pitches(store, pitches, &mut self.forces);
    }
}
