// A number of at most eight digits, with its text in a word.
#![tactic(auto)]

mod pairs;

ghost use Rattle.std.specs.Prelude.{◌≡◌, ◌+◌, ◌≤◌, ◌<◌, length};
ghost use Rattle.text.specs.Text.{decimal};
ghost use Rattle.digits.specs.Words.{bytes_of};

use pairs::four;

// Numbers from here on have more than eight digits. That one is below is asked for: a row tests its four numbers once.
pub const LONG: u32 = 100_000_000;

// The number's text is the `len` lowest bytes of the word, the lowest first.
#[derive(Clone, Copy)]
pub struct Digits {
    pub number: u32,
    pub word: u64,
    pub len: usize,
    pub ghost text: { bytes_of len word ≡ decimal number },
    pub ghost some: { 1 ≤ len },
    pub ghost most: { len ≤ 8 },
}

// How many digits a number of at most four has. By `ilog10`, as `text` counts them, a listing takes 4 % longer.
fn count(number: u32) -> usize
    requires { number < 10000 }
    ensures value { result ≡ length (decimal number) }
    ensures bounds { (1 ≤ result) × (result ≤ 4) }
{
    1 + usize::from(number >= 10) + usize::from(number >= 100) + usize::from(number >= 1_000)
}

// The digits of a number of at most four.
fn short(number: u32) -> Digits
    requires { number < 10000 }
    ensures { result.number ≡ number }
{
    let len = count(number);
    let word = four(number as usize) >> (8 * (4 - len));
    Digits { number, word, len }
}

// The digits of a number of five to eight. Apart from `short`: one function for both would ask again which of them it is.
fn long(number: u32) -> Digits
    requires { (10000 ≤ number) × (number < 100000000) }
    ensures { result.number ≡ number }
{
    let first = number / 10_000;
    let last = number % 10_000;
    let len = count(first);
    let all = four(first as usize) + 4_294_967_296 * four(last as usize);
    let word = all >> (8 * (4 - len));
    Digits {
        number,
        word,
        len: len + 4,
    }
}

impl Digits {
    pub fn of(number: u32) -> Digits
        requires { number < 100000000 }
        ensures { result.number ≡ number }
    {
        if number < 10_000 {
            return short(number);
        }
        long(number)
    }

    // The digits of a number, which are at hand where it is this one.
    pub fn or_of(self, number: u32) -> Digits
        requires { number < 100000000 }
        ensures { result.number ≡ number }
    {
        if self.number == number {
            return self;
        }
        Digits::of(number)
    }
}
