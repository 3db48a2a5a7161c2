// The smaller, the larger and the difference of two numbers.
ghost use Rattle.std.specs.Prelude.{◌≡◌, ◌-◌, min, max};

pub fn least(a: u64, b: u64) -> u64
    ensures { result ≡ min a b }
{
    a.min(b)
}

pub fn most(a: u64, b: u64) -> u64
    ensures { result ≡ max a b }
{
    a.max(b)
}

// a less b, and 0 where b is the larger.
pub fn less(a: u64, b: u64) -> u64
    ensures { result ≡ a - b }
{
    a.saturating_sub(b)
}
