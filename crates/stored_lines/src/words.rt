// The words of a line: the first, and its numbers in turn. A word ends before a blank, which is any byte up to the space.
ghost use Rattle.std.specs.Prelude.{◌≡◌, ◌≤◌};

use arrayvec::ArrayVec;
use figures::Site;
use std::str;

// What - stands for where a number may be none, as a force or a day.
const NONE: u32 = 4_294_967_295;

// Every other number is less.
const LIMIT: u32 = 1_000_000_000;

// What is read in the place of a number that a line lacks is this and how many numbers it has: more than any figure.
const MISSING: u32 = 4_000_000_002;

// So many numbers of a line count.
const MOST_NUMBERS: usize = 199;

fn is_blank(byte: &u8) -> bool {
    *byte <= b' '
}

pub fn first_word(line: &[u8]) -> &[u8] {
    line.split(is_blank).next().unwrap_or(line)
}

// A word of digits, or one that ends in - as a number; any other word is passed over.
fn read_number(word: &[u8]) -> Option<u32> {
    if word.ends_with(b"-") {
        return Some(NONE);
    }
    if !word.iter().all(|byte| byte.is_ascii_digit()) {
        return None;
    }
    let number = str::from_utf8(word).ok()?.parse().ok()?;
    (number < LIMIT).then_some(number)
}

// The numbers of a line in turn.
#[derive(Drop)]
pub struct Numbers {
    numbers: ArrayVec<u32, MOST_NUMBERS>,
    taken: usize,
}

impl Numbers {
    pub fn of(line: &[u8]) -> Numbers {
        let mut words = line.split(is_blank);
        // Behind the last blank a text may be cut within a number, so nothing that stands there counts.
        let _ = words.next_back();
        let mut numbers = ArrayVec::new();
        // Numbers that find no room don't count.
        let _ = numbers.extend(words.filter_map(read_number));
        Numbers { numbers, taken: 0 }
    }

    // How many numbers were not taken yet.
    pub fn left(&self) -> usize
        ensures { result ≤ 199 }
    {
        self.numbers.len().saturating_sub(self.taken)
    }

    pub fn take(&mut self) -> u32 {
        let place = self.taken;
        self.taken = place.saturating_add(1);
        match self.numbers.get(place) {
            Some(number) => *number,
            None => MISSING + self.numbers.len() as u32,
        }
    }

    // The next number as a field of 16 bits has it.
    pub fn take_short(&mut self) -> u16 {
        (self.take() % 65_536) as u16
    }

    // The next number as a field of 8 bits has it.
    pub fn take_byte(&mut self) -> u8 {
        (self.take() % 256) as u8
    }

    // The next number, none where - stands.
    pub fn take_or_none(&mut self) -> Option<u32> {
        let number = self.take();
        (number != NONE).then_some(number)
    }

    pub fn take_day(&mut self) -> Option<u16> {
        let day = self.take_or_none()?;
        Some((day % 65_536) as u16)
    }

    // The next number, 0 where none stands.
    pub fn take_or_zero(&mut self) -> u32 {
        let number = self.take();
        if number < LIMIT { number } else { 0 }
    }

    // A site, whose job has a day or none.
    pub fn take_site(&mut self, day: Option<u16>) -> Site
        ensures { result.day ≡ day }
    {
        Site {
            sk: self.take(),
            ce: self.take_short(),
            ct: self.take_short(),
            cesl: self.take_short(),
            situation: self.take_byte(),
            altitude: self.take_short(),
            day,
        }
    }
}
