// The lent bytes with the place of the next one, and what is written there: bytes, numbers, rows of numbers.
ghost use Rattle.std.specs.Prelude.{◌+◌, ◌*◌, ◌≤◌, ◌<◌, ◌≡◌, length};
ghost use Rattle.text.specs.Text.{decimal, field, row};
ghost use Rattle.text.specs.Written.{Wrote};

use itoa::write_digits;

#[derive(Drop)]
pub struct Writer<'a> {
    pub bytes: &'a mut [u8],
    pub at: usize,
}

// How many digits a number has.
fn digit_count(number: u32) -> usize
    ensures { result ≡ length (decimal number) }
{
    number.max(1).ilog10() as usize + 1
}

impl<'a> Writer<'a> {
    // Begins at the front of the lent bytes.
    pub fn new(bytes: &'a mut [u8]) -> Writer<'a>
        ensures front { (result.bytes.now ≡ bytes.old) × (result.at ≡ 0) }
        ensures same_bytes { result.bytes.ghost_name ≡ bytes.entry.ghost_name }
    {
        Writer { bytes, at: 0 }
    }

    // Writes bytes as they are.
    pub fn put_bytes(&mut self, text: &[u8])
        requires { self.old.at + length text.now ≤ length self.old.bytes.now }
        ensures { Wrote self.old text.now self.new }
    {
        let end = self.at + text.len();
        self.bytes[self.at..end].copy_from_slice(text);
        self.at = end;
    }

    // Writes a number in decimal.
    pub fn put_number(&mut self, number: u32)
        requires { self.old.at + 10 ≤ length self.old.bytes.now }
        ensures { Wrote self.old (decimal number) self.new }
    {
        let end = self.at + digit_count(number);
        write_digits(u64::from(number), self.bytes, end);
        self.at = end;
    }

    // Writes a number and the byte behind it.
    pub fn put_field(&mut self, number: u32, behind: u8)
        requires { self.old.at + 11 ≤ length self.old.bytes.now }
        ensures wrote { Wrote self.old (field number behind) self.new }
        ensures upper_bound { self.new.at ≤ self.old.at + 11 }
    {
        self.put_number(number);
        self.bytes[self.at] = behind;
        self.at += 1;
    }

    // Writes the row of some numbers: a space between them, and a line feed behind the last.
    pub fn put_row<const N: usize>(&mut self, numbers: &[u32; N])
        requires { (0 < N) × (self.old.at + 11 * N ≤ length self.old.bytes.now) }
        ensures wrote { Wrote self.old (row numbers.now) self.new }
        ensures upper_bound { self.new.at ≤ self.old.at + 11 * N }
    {
        let last = N - 1;
        for number in &numbers[..last] {
            self.put_field(*number, b' ');
        }
        self.put_field(numbers[last], b'\n');
    }
}
