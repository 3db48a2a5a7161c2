// The arguments that the program was started with.
ghost use Rattle.std.specs.Prelude.{◌≤◌, length, IfOk};

use std::env::{Env, FillError};
use std::str;
use std::str::Utf8Error;
use thiserror::Error;

// Why an argument can't be had as text.
#[derive(Clone, Copy, Debug, PartialEq, Eq, Error)]
pub enum ArgumentError {
    #[error("there is no such argument")]
    Missing,
    #[error("the argument is too long")]
    TooLong,
    #[error("the argument is not text")]
    NotText,
}

impl From<FillError> for ArgumentError {
    fn from(error: FillError) -> ArgumentError {
        match error {
            FillError::NotPresent => ArgumentError::Missing,
            FillError::TooLong => ArgumentError::TooLong,
        }
    }
}

impl From<Utf8Error> for ArgumentError {
    fn from(_: Utf8Error) -> ArgumentError {
        ArgumentError::NotText
    }
}

// An argument by its number, in the room that the caller lends. The program's name is number 0.
pub fn argument<'a>(
    rt: &impl Env,
    number: usize,
    room: &'a mut [u8],
) -> Result<&'a str, ArgumentError>
    ensures { IfOk result (λ text. length text.now ≤ length room.old) }
{
    let n = rt.arg(number, room)?;
    Ok(str::from_utf8(&room[..n])?)
}

#[cfg(test)]
mod tests {
    use super::*;
    use std::alloc::AllocError;

    // One argument of each sort.
    struct Given;

    impl Env for Given {
        fn arg(&self, i: usize, buf: &mut [u8]) -> Result<usize, FillError> {
            if buf.len() < 2 {
                return Err(FillError::TooLong);
            }
            match i {
                0 => {
                    buf[0] = b'a';
                    buf[1] = b'b';
                    Ok(2)
                }
                1 => {
                    buf[0] = 0xff;
                    Ok(1)
                }
                _ => Err(FillError::NotPresent),
            }
        }

        fn var(&self, _name: &str, _buf: &mut [u8]) -> Result<usize, FillError> {
            Err(FillError::NotPresent)
        }

        fn var_at(&self, _i: usize, _buf: &mut [u8]) -> Result<usize, FillError> {
            Err(FillError::NotPresent)
        }
    }

    #[test]
    fn gives_an_argument_or_says_why_not(rt: HostRuntime) {
        let mut room = [0u8; 4];
        assert_eq!(rt; argument(&Given, 0, &mut room), Ok("ab"));
        assert_eq!(rt; argument(&Given, 1, &mut room), Err(ArgumentError::NotText));
        assert_eq!(rt; argument(&Given, 2, &mut room), Err(ArgumentError::Missing));
        assert_eq!(rt;
            argument(&Given, 0, &mut room[..1]),
            Err(ArgumentError::TooLong)
        );
    }

    #[test]
    fn says_each_reason(rt: HostRuntime) -> Result<(), AllocError> {
        let reasons = [
            (ArgumentError::Missing, "there is no such argument"),
            (ArgumentError::TooLong, "the argument is too long"),
            (ArgumentError::NotText, "the argument is not text"),
        ];
        for (reason, text) in reasons {
            let said = format!(in rt.alloc(); "{reason}")?;
            assert_eq!(rt; said.as_str(), text);
        }
        Ok(())
    }
}
