// What a line of stored cases gives or asks.
ghost use Rattle.std.specs.Prelude.{◌≡◌, IfOk, IfSome};
ghost use Rattle.stored_lines.specs.Lines.{SpansFit, LineFits, IsGiven};

use crate::roofs::take_roof;
use crate::words::{Numbers, first_word};
use figures::{Roof, Site};

// A line that has not the word and as many numbers as the word asks for.
#[derive(Clone, Copy, Debug, PartialEq, Eq)]
pub struct UnreadableLine;

// A job: how many of the file's sets its store has, and its day.
#[derive(Clone, Copy)]
pub struct Job {
    pub sets: u32,
    pub day: Option<u16>,
}

// Guarded slopes of a width at a site, of every twelfth pitch from the first on.
#[derive(Clone, Copy)]
pub struct Pitches {
    pub first: u32,
    pub width: u32,
    pub site: Site,
}

// A question whose answer is stored.
#[derive(Clone, Copy)]
pub enum Question {
    // A number of the slice that the maker fills, from 0.
    Number { place: usize, figure: u32 },
    // The load read at a station.
    Load { station: u32, figure: u32 },
    // The number of the maker's and the reader's refusal, also in another code before slice and station are looked at.
    Refusal { other_code: u8, number: u8 },
    // The number by which every call refuses, also in another code.
    Outside { other_code: u8, number: u8 },
    // The force at the eave of a slope.
    Overhang { slope: u8, force: Option<u32> },
    // The force on the guard of a slope.
    Guard { slope: u8, force: Option<u32> },
}

// A question about a roof at a site, in a code.
#[derive(Clone, Copy)]
pub struct Case {
    pub question: Question,
    pub site: Site,
    pub code: u8,
    pub roof: Roof,
}

#[derive(Clone, Copy)]
pub enum Line {
    // One more national set, by its six numbers.
    Set([u32; 6]),
    // One more site for the roofs to compare.
    Site(Site),
    // One more job for those sites.
    Job(Job),
    // A roof to compare at every site and in every job.
    Compare(Roof),
    Pitches(Pitches),
    Case(Case),
}

impl Line {
    // The line with its end, if it has one: without it the last word may be cut.
    pub fn read(text: &[u8]) -> Result<Line, UnreadableLine>
        ensures { IfOk result LineFits }
    {
        read_line(text).ok_or(UnreadableLine)
    }

    // The set, the site or the job that a line gives by its first word alone, even if it can't be read.
    pub fn given(text: &[u8]) -> Option<Line>
        ensures { IfSome result IsGiven }
    {
        let mut numbers = Numbers::of(text);
        match first_word(text) {
            b"set" => Some(Line::Set(take_set(&mut numbers))),
            b"sites" => Some(Line::Site(numbers.take_site(None))),
            b"jobs" => Some(Line::Job(take_job(&mut numbers))),
            _ => None,
        }
    }
}

fn read_line(text: &[u8]) -> Option<Line>
    ensures { IfSome result LineFits }
{
    let (day, text) = split_day(text)?;
    let mut numbers = Numbers::of(text);
    match (first_word(text), numbers.left()) {
        (b"set" | b"sites", 6) | (b"jobs", 2) => Line::given(text),
        (b"compare", _) => take_roof(&mut numbers).map(Line::Compare),
        (b"pitches", 8) => Some(Line::Pitches(take_pitches(&mut numbers, day))),
        (word, _) => take_case(&mut numbers, word, day).map(Line::Case),
    }
}

// A line may begin with the day of its job, between two spaces. The day is the first of all its numbers.
fn split_day(text: &[u8]) -> Option<(Option<u16>, &[u8])> {
    if !matches!(first_word(text), b"dated") {
        return Some((None, text));
    }
    let rest = text.splitn(3, |byte| *byte == b' ').nth(2)?;
    Some((Numbers::of(text).take_day(), rest))
}

fn take_set(numbers: &mut Numbers) -> [u32; 6] {
    let mut set = [0; 6];
    for number in &mut set {
        *number = numbers.take();
    }
    set
}

fn take_job(numbers: &mut Numbers) -> Job {
    Job {
        sets: numbers.take(),
        day: numbers.take_day(),
    }
}

fn take_pitches(numbers: &mut Numbers, day: Option<u16>) -> Pitches {
    Pitches {
        first: numbers.take(),
        width: numbers.take(),
        site: numbers.take_site(day),
    }
}

// A case whose job has a day or none, by the word of its question. The words between its numbers are for people.
fn take_case(numbers: &mut Numbers, word: &[u8], day: Option<u16>) -> Option<Case>
    ensures { IfSome result (λ asked. SpansFit asked.roof.shape asked.roof.spans) }
{
    Some(Case {
        question: take_question(numbers, word)?,
        site: numbers.take_site(day),
        code: numbers.take_byte(),
        roof: take_roof(numbers)?,
    })
}

fn take_question(numbers: &mut Numbers, word: &[u8]) -> Option<Question> {
    match word {
        b"number" => Some(Question::Number {
            place: numbers.take() as usize,
            figure: numbers.take(),
        }),
        b"load" => Some(Question::Load {
            station: numbers.take(),
            figure: numbers.take(),
        }),
        b"refusal" => Some(Question::Refusal {
            other_code: numbers.take_byte(),
            number: numbers.take_byte(),
        }),
        b"outside" => Some(Question::Outside {
            other_code: numbers.take_byte(),
            number: numbers.take_byte(),
        }),
        b"overhang" => Some(Question::Overhang {
            slope: numbers.take_byte(),
            force: numbers.take_or_none(),
        }),
        b"guard" => Some(Question::Guard {
            slope: numbers.take_byte(),
            force: numbers.take_or_none(),
        }),
        _ => None,
    }
}

#[cfg(test)]
mod tests {
    use super::*;

    fn set_of(line: Option<Line>) -> Option<[u32; 6]> {
        match line? {
            Line::Set(set) => Some(set),
            _ => None,
        }
    }

    #[test]
    fn reads_numbers_by_their_place(rt: HostRuntime) {
        assert!(rt; Line::read(b"compare 2 300 0 5000\n").is_ok());
        assert!(rt; Line::read(b"compare of 2,\t2 with 0300 0 5000 ").is_ok());
        assert!(rt; Line::read(b"compare 2 300 0\n").is_err());
        assert!(rt; Line::read(b"compare 2 300 0 5000 7\n").is_err());
        let set = set_of(Line::read(b"set 1 2 3 - 5 999999999\n").ok());
        assert_eq!(rt; set, Some([1, 2, 3, 4_294_967_295, 5, 999_999_999]));
        assert!(rt; Line::read(b"set 1 2 3 4 5 1000000000\n").is_err());
        assert!(rt; Line::read(b"set 1 2 3 4 5 +6\n").is_err());
        assert!(rt; Line::read(b" set 1 2 3 4 5 6\n").is_err());
    }

    #[test]
    fn refuses_a_line_that_is_cut(rt: HostRuntime) {
        assert!(rt; Line::read(b"compare 12 400 1000 10000 3000\n").is_ok());
        assert!(rt; Line::read(b"compare 12 400 1000 10000 3000").is_err());
        assert!(rt; Line::read(b"compare 12 400 1000 10000 300").is_err());
        assert!(rt; Line::read(b"").is_err());
    }

    #[test]
    fn has_the_day_and_narrow_fields(rt: HostRuntime) {
        let line =
            b"dated 65541 guard 257 - site 1000 100 100 100 256 65536 code 258 roof 2 300 1 5000\n";
        let Ok(Line::Case(case)) = Line::read(line) else {
            return assert!(rt; false);
        };
        assert!(rt;
            matches!(
                case.question,
                Question::Guard {
                    slope: 1,
                    force: None
                }
            )
        );
        assert_eq!(rt; case.site.day, Some(5));
        assert_eq!(rt; case.site.situation, 0);
        assert_eq!(rt; case.site.altitude, 0);
        assert_eq!(rt; case.code, 2);
        assert!(rt; Line::read(b"dated\t5 compare 2 300 0 5000\n").is_err());
    }

    #[test]
    fn gives_by_the_first_word_alone(rt: HostRuntime) {
        assert!(rt; Line::read(b"set 7\n").is_err());
        let missing = 4_000_000_003;
        let set = set_of(Line::given(b"set 7\n"));
        assert_eq!(rt; set, Some([7, missing, missing, missing, missing, missing]));
        assert!(rt; Line::read(b"jobs 1\n").is_err());
        assert!(rt; Line::given(b"jobs 1\n").is_some());
        assert!(rt; Line::read(b"dated 5 sites 1000 100 100 100 0 0\n").is_ok());
        assert!(rt; Line::given(b"dated 5 sites 1000 100 100 100 0 0\n").is_none());
    }
}
