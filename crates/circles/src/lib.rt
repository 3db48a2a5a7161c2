// Following upper items from one of a sheet's items: whether it comes back.
#![tactic(auto)]

ghost use Rattle.std.specs.Prelude.{◌≡◌, ◌<◌};
ghost use Rattle.circles.specs.Following.{upper_in, comes_back};

// The upper item of item i by a table. A roof that has none stands on the site, item 0.
pub fn upper_of(upper: &[u8], i: usize) -> usize
    ensures { result ≡ upper_in upper.now i }
{
    upper.get(i).map_or(0, |above| usize::from(*above))
}

// Whether following upper items from roof i, one of n items, comes back to it. It ends at the site, which has none above it.
// The table is as long as the largest sheet's, since there is no heap, so n stands beside it.
pub fn comes_back(upper: &[u8], n: usize, i: usize) -> bool
    requires { (0 < i) × (upper_in upper.now 0 ≡ 0) }
    ensures { result ≡ comes_back (upper_in upper.now) n i }
{
    let mut above = upper_of(upper, i);
    for _step in 0..n {
        if above == 0 {
            return false;
        }
        if above == i {
            return true;
        }
        above = upper_of(upper, above);
    }
    false
}
