// The maker's answer and the slice that it leaves, against the expected segments.
ghost use Rattle.std.specs.Prelude.{◌≤◌, ◌<◌};

use crate::given::Given;
use second::{LoadCase, TENTHS};

// What stands in the slice before a call: no position and no load. `worked_sets` has its own: a crate for the one number would be longer.
const BLANK: u32 = 4_000_000_001;

#[derive(Debug, Drop)]
pub struct Made {
    pub answer: Result<usize, u8>,
    pub numbers: [u32; 128],
}

impl Made {
    // With room for every segment.
    pub fn new(given: &Given<'_>, code: u8) -> Made {
        Made::with_room(given, code, 128)
    }

    // With room for so many numbers.
    pub fn with_room(given: &Given<'_>, code: u8, room: usize) -> Made
        requires { room ≤ 128 }
    {
        let mut numbers = [BLANK; 128];
        let answer = given.make(code, &mut numbers[..room]);
        Made { answer, numbers }
    }

    // Whether the maker refuses by a number and leaves the slice as it was.
    pub fn is_refused(&self, number: u8) -> bool {
        self.answer == Err(number) && self.numbers == [BLANK; 128]
    }

    // Whether the maker makes the expected segments, and nothing behind them.
    pub fn is_expected(&self, expected: &LoadCase<'_>) -> bool {
        let n = expected.segment_count();
        let (rows, _) = self.numbers.as_chunks::<4>();
        self.answer == Ok(n)
            && rows.iter().enumerate().all(|(i, row)| {
                *row == if i < n {
                    expected_row(expected, i)
                } else {
                    [BLANK; 4]
                }
            })
    }
}

// Start, end and the loads there of the segment at an index.
fn expected_row(expected: &LoadCase<'_>, i: usize) -> [u32; 4]
    requires { i < 32 }
{
    let segment = expected.segment(i);
    let load = |station| expected.ground.load_on(&segment, station, TENTHS);
    [
        segment.start,
        segment.end,
        load(segment.start),
        load(segment.end),
    ]
}
