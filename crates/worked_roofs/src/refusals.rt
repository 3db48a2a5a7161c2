// Refusals by their numbers.
use crate::given::Given;
use crate::made::Made;
use counts::Compared;
use second::{LoadCase, roof_end};

// A slice that is too short, and a station past the roof's end, by the documents' numbers: the library's
// own refusals play no part in what it is held against.
const SLICE: u8 = 11;

const PAST_THE_END: u8 = 12;

// The number by which calls refuse in a code, and also in another code, which breaks a later rule.
#[derive(Clone, Copy, Debug)]
pub struct ExpectedRefusal {
    pub code: u8,
    pub other_code: u8,
    pub number: u8,
}

impl ExpectedRefusal {
    // The maker refuses with room for every segment, and in the other code before the slice is looked at; the reader at the roof's
    // start, and in the other code far from any roof.
    pub fn compare(self, given: &Given<'_>, count: &mut Compared) {
        let number = self.number;
        let full = Made::new(given, self.code);
        let none = Made::with_room(given, self.other_code, 0);
        count.compare(!full.is_refused(number) || !none.is_refused(number));
        let start = given.load(self.code, 0);
        let far = given.load(self.other_code, u32::MAX);
        count.compare(start != Err(number) || far != Err(number));
    }

    // Figures outside their ranges: the same number from every call, also where the slope breaks a later rule.
    pub fn compare_every_call(self, given: &Given<'_>, count: &mut Compared) {
        self.compare(given, count);
        let eave = given.overhang(1);
        let guard = given.guard_force(9);
        count.compare(eave != Err(self.number) || guard != Err(self.number));
    }
}

// A code that exists: refused in a slice one number too short, and past the roof's end.
pub fn compare_beyond(given: &Given<'_>, expected: &LoadCase<'_>, count: &mut Compared) {
    let numbers = 4 * expected.segment_count();
    let short = Made::with_room(given, expected.code, numbers.saturating_sub(1));
    count.compare(!short.is_refused(SLICE));
    let past = given.load(expected.code, roof_end(given.roof).saturating_add(1));
    let far = given.load(expected.code, u32::MAX);
    count.compare(past != Err(PAST_THE_END) || far != Err(PAST_THE_END));
}
