// The records of a file, one after the other: the sizes of a sheet and of its text in 32 bits each, the sheet, the text.
ghost use Rattle.std.specs.Prelude.{◌+◌, ◌<◌, cond, length, IfSome};
ghost use Rattle.std.specs.Iterator.{at_most};

// A stored sheet, and the text that is stored with it.
#[derive(Clone, Copy, Debug)]
pub struct Record<'a> {
    pub sheet: &'a [u8],
    pub text: &'a [u8],
}

// A file as far as there is room for it, and whether it goes on behind that.
#[derive(Clone, Copy, Debug)]
pub struct StoredFile<'a> {
    pub bytes: &'a [u8],
    pub goes_on: bool,
}

// In the place of a record that runs past the end of the file, or past the room for it.
#[derive(Clone, Copy, Debug)]
pub struct Damaged;

// The records in turn, up to the first that is damaged.
#[derive(Clone, Copy, Debug)]
pub struct Records<'a> {
    rest: &'a [u8],
    goes_on: bool,
}

impl<'a> Records<'a> {
    pub fn new(file: StoredFile<'a>) -> Records<'a> {
        Records {
            rest: file.bytes,
            goes_on: file.goes_on,
        }
    }
}

impl<'a> Iterator for Records<'a> {
    type Item = Result<Record<'a>, Damaged>;

    ghost remaining = { λ s. at_most (length s.rest.now + cond s.goes_on 1 0) };

    fn next(&mut self) -> Option<Result<Record<'a>, Damaged>> {
        if self.rest.is_empty() && !self.goes_on {
            return None;
        }
        match split_first_record(self.rest) {
            Some((record, rest)) => {
                self.rest = rest;
                Some(Ok(record))
            }
            None => {
                self.rest = &[];
                self.goes_on = false;
                Some(Err(Damaged))
            }
        }
    }
}

// The first record, and what stands behind it.
fn split_first_record(bytes: &[u8]) -> Option<(Record<'_>, &[u8])>
    ensures { IfSome result (λ p. length p.1.now < length bytes.now) }
{
    let (sheet_size, rest) = bytes.split_first_chunk()?;
    let (text_size, rest) = rest.split_first_chunk()?;
    let (sheet, rest) = rest.split_at_checked(u32::from_le_bytes(*sheet_size) as usize)?;
    let (text, rest) = rest.split_at_checked(u32::from_le_bytes(*text_size) as usize)?;
    Some((Record { sheet, text }, rest))
}
