// What a program is given, in room that the caller lends: its arguments, and an input read whole.
#![tactic(auto)]

mod arguments;

ghost use Rattle.std.specs.Prelude.{◌<◌, length, take, IfOk};
ghost use Rattle.std.specs.Io.{ReadsAtMost};
ghost use Rattle.std.specs.Io.KnownBytes.{Consumes, IsAtEnd};

pub use arguments::{ArgumentError, argument};
use ceilings::SHEET_BYTES;
use std::io;
use std::io::Read;

// Reads until the room is full or the input ends, and answers how many bytes stand at the room's start. These are the
// next bytes of the input, and where the room isn't full, they are all that it had left.
pub fn read_full<R: Read>(input: &mut R, room: &mut [u8]) -> io::Result<usize>
    ensures bound { ReadsAtMost result room.new }
    ensures bytes { IfOk result (λ n. Consumes (R.remaining input.old) (R.remaining input.new) (take n room.new)) }
    ensures end { IfOk result (λ n. n < length room.new → IsAtEnd (R.remaining input.new)) }
{
    let mut done = 0;
    // A read says how much came, so there is no count to go over; after an early end `read_exact` does not say how much.
    while done < room.len() {
        let n = input.read(&mut room[done..])?;
        if n == 0 {
            return Ok(done);
        }
        done += n;
    }
    Ok(done)
}

// A sheet's most bytes and one more, which tells a sheet that is too long.
pub const SHEET_ROOM: usize = SHEET_BYTES + 1;

// Reads an input whole, as far as the room goes. Where the room isn't full, one read more must find the end again: an input that goes on
// after its end was not read whole.
pub fn read_whole<R: Read>(input: &mut R, room: &mut [u8]) -> io::Result<usize>
    ensures bound { ReadsAtMost result room.new }
    ensures bytes { IfOk result (λ n. Consumes (R.remaining input.old) (R.remaining input.new) (take n room.new)) }
    ensures end { IfOk result (λ n. n < length room.new → IsAtEnd (R.remaining input.new)) }
{
    let n = read_full(input, room)?;
    if n < room.len() && input.read(&mut [0])? > 0 {
        return Err(io::Error::other("the input went on after its end"));
    }
    Ok(n)
}

#[cfg(test)]
mod tests {
    use super::*;

    // Gives one byte a read, the number of those that are left. It ends at 0, and its read fails at `fails_at`.
    #[derive(Drop)]
    struct Drip {
        left: u8,
        fails_at: u8,
    }

    impl Read for Drip {
        fn read(&mut self, buf: &mut [u8]) -> io::Result<usize> {
            let left = self.left;
            if left == self.fails_at {
                return Err(io::Error::other("broken"));
            }
            if left == 0 || buf.is_empty() {
                return Ok(0);
            }
            buf[0] = left;
            self.left = left - 1;
            Ok(1)
        }
    }

    #[test]
    fn reads_to_the_end_or_to_the_room(rt: HostRuntime) {
        let mut drip = Drip {
            left: 5,
            fails_at: 9,
        };
        let mut small = [0u8; 2];
        assert!(rt; matches!(read_full(&mut drip, &mut small), Ok(2)));
        assert_eq!(rt; small, [5, 4]);
        let mut large = [7u8; 5];
        assert!(rt; matches!(read_full(&mut drip, &mut large), Ok(3)));
        assert_eq!(rt; large, [3, 2, 1, 7, 7]);
        assert!(rt; matches!(read_full(&mut drip, &mut []), Ok(0)));
    }

    // Gives a byte, its end, and then a byte again for each read.
    #[derive(Drop)]
    struct GoesOn {
        reads: u8,
    }

    impl Read for GoesOn {
        fn read(&mut self, buf: &mut [u8]) -> io::Result<usize> {
            if buf.is_empty() {
                return Ok(0);
            }
            let reads = self.reads;
            self.reads = reads.wrapping_add(1);
            if reads == 1 {
                return Ok(0);
            }
            buf[0] = reads;
            Ok(1)
        }
    }

    #[test]
    fn refuses_an_input_that_goes_on(rt: HostRuntime) {
        let mut drip = Drip {
            left: 5,
            fails_at: 9,
        };
        let mut large = [7u8; 6];
        assert!(rt; matches!(read_whole(&mut drip, &mut large), Ok(5)));
        assert_eq!(rt; large, [5, 4, 3, 2, 1, 7]);
        let mut full = GoesOn { reads: 0 };
        assert!(rt; matches!(read_whole(&mut full, &mut large[..1]), Ok(1)));
        let mut on = GoesOn { reads: 0 };
        assert!(rt; read_whole(&mut on, &mut large).is_err());
    }

    #[test]
    fn hands_on_a_failed_read(rt: HostRuntime) {
        let mut drip = Drip {
            left: 5,
            fails_at: 3,
        };
        let mut room = [0u8; 8];
        assert!(rt; read_full(&mut drip, &mut room).is_err());
    }
}
