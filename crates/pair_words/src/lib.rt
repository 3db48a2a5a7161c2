// A pair as one word of 32 bits: its four bytes put together, the offset and the length split from it, and joined again.
// Every call takes any bytes, any word and any pair.
#![tactic(auto)]

ghost use Rattle.std.specs.Prelude.{◌≡◌, ◌+◌};
ghost use Rattle.pair_words.specs.Words.{word_of, join, split};

// A pair: where an item begins in the sheet, and how many bytes it has.
#[derive(Clone, Copy, Debug, PartialEq, Eq)]
pub struct Pair {
    pub offset: u16,
    pub size: u16,
}

impl Pair {
    // Where its item begins in the sheet.
    pub fn start(self) -> usize
        ensures { result ≡ self.offset }
    {
        usize::from(self.offset)
    }

    // Where its item ends.
    pub fn end(self) -> usize
        ensures { result ≡ self.offset + self.size }
    {
        self.start() + usize::from(self.size)
    }
}

// The word of a pair's four bytes. It, `split` and `join` are calls and no `From`, since document 02 asks for callable parts.
pub fn word(first: u8, second: u8, third: u8, fourth: u8) -> u32
    ensures { result ≡ word_of first second third fourth }
{
    u32::from_le_bytes([first, second, third, fourth])
}

// The offset and the length of a word. Joined again, they are the word.
pub fn split(w: u32) -> Pair
    ensures { (result ≡ split w) × (join result ≡ w) }
{
    Pair {
        offset: (w % 65_536) as u16,
        size: (w / 65_536) as u16,
    }
}

// The word of an offset and a length. Split again, it is the pair.
pub fn join(p: Pair) -> u32
    ensures { (result ≡ join p) × (split result ≡ p) }
{
    u32::from(p.offset) + 65_536 * u32::from(p.size)
}
