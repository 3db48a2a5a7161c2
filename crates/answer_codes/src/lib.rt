// Answers as numbers of 32 bits.
#![tactic(auto)]

ghost use Rattle.std.specs.Prelude.{◌≡◌, ◌≤◌};
ghost use Rattle.figures.specs.Refusal.{number_of, numbered};
ghost use Rattle.std.specs.Result.{ForOk};
ghost use Rattle.pairs.specs.Pairs.{answer_means};
ghost use Rattle.answer_codes.specs.Codes.{refusal_code, answer_code, force_code, alone_code};

use figures::Refusal;
use pairs::Refused;

// The answer where there is no such force, a number of the C interface.
pub const NONE: u32 = 0xFFFF_FFFF;

// A refusal by any number of 8 bits, with the item that it names. An index above 65,535 shows as that.
#[tactic(auto, unfolding(crate::specs::Codes::refusal_code))]
pub fn refusal(number: u8, item: usize) -> u32
    ensures { result ≡ refusal_code number item }
{
    0x8000_0000 + 65_536 * u32::from(number) + item.min(65_535) as u32
}

// One of the refusals that there are, with the item that it names.
pub fn refused(refused: Refused) -> u32
    ensures { result ≡ refusal_code (number_of refused.refusal) refused.item }
{
    refusal(u8::from(refused.refusal), refused.item)
}

// A number, or a refusal.
pub fn number(answer: Result<u32, Refused>) -> u32
    ensures { result ≡ answer_code (answer_means answer) }
{
    answer.unwrap_or_else(refused)
}

// A count of items, of segments or of bytes, or a refusal.
pub fn count(answer: Result<usize, Refused>) -> u32
    requires { ForOk answer (λ n. n ≤ 16384) }
    ensures { result ≡ answer_code (answer_means answer) }
{
    number(answer.map(|n| n as u32))
}

// A force, none, or a refusal.
pub fn force(answer: Result<Option<u32>, Refused>) -> u32
    ensures { result ≡ force_code (answer_means answer) }
{
    number(answer.map(|force| force.unwrap_or(NONE)))
}

// A number, or a refusal that names no item, and so item 0.
pub fn alone(answer: Result<u32, Refusal>) -> u32
    ensures { result ≡ alone_code (numbered answer) }
{
    number(answer.map_err(|refusal| Refused { refusal, item: 0 }))
}
