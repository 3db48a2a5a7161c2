// The least number that is enough, without a division.
ghost use Rattle.std.specs.Prelude.{◌≤◌};

// The least number up to `most` that is enough, by halving, where every greater one is enough too; `most` if none below it is.
pub fn least<F: Fn(u32) -> bool>(most: u32, enough: F) -> u32
    requires { F.IsAlwaysCallable enough }
    ensures { result ≤ most }
{
    let mut from = 0;
    let mut to = most;
    // Two ends that close in: there is no range to go over.
    while from < to {
        let middle = from + (to - from) / 2;
        if enough(middle) {
            to = middle;
        } else {
            from = middle + 1;
        }
    }
    from
}
