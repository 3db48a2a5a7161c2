// Rules over the items of a sheet in turn.
ghost use Rattle.std.specs.Prelude.{◌≡◌, ℕ, ◌-◌, ◌≤◌, ◌<◌};
ghost use Rattle.figures.specs.Refusal.{number_in};
ghost use Rattle.pairs.specs.Pairs.{NamesNone, in_turn, verdict_means};

use figures::Refusal;

// Why a sheet is refused, with the item that breaks the rule.
#[derive(Clone, Copy, Debug, PartialEq, Eq)]
pub struct Refused {
    pub refusal: Refusal,
    pub item: usize,
}

// A refusal that names no item of its own names item 0.
impl From<Refusal> for Refused {
    ghost from_gives = { NamesNone };

    fn from(refusal: Refusal) -> Refused {
        Refused { refusal, item: 0 }
    }
}

// Checks the items from the first on in turn, of which the first that is refused is named; where none is, their count is answered.
pub fn in_turn<F: Fn(usize) -> Result<(), Refusal>>(
    first: usize,
    count: usize,
    check: F,
) -> Result<usize, Refused>
    requires { (i : ℕ) → first ≤ i → i < count → F.pre check i }
    ensures { (number : ℕ → ℕ) → ((i : ℕ) (r : _) → first ≤ i → i < count → F.post check i r → number_in r ≡ number i)
        → verdict_means result ≡ in_turn number count first (count - first) }
{
    for i in first..count {
        if let Err(refusal) = check(i) {
            return Err(Refused { refusal, item: i });
        }
    }
    Ok(count)
}
