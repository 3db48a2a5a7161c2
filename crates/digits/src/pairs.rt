// The text of two and of four digits as a word, its first byte the lowest.
ghost use Rattle.std.specs.Prelude.{◌≡◌, ◌<◌};
ghost use Rattle.digits.specs.Words.{pack, padded, pair_word};

// The pairs 00 to 99. A static, since a constant would be copied at each read.
static PAIRS: [u8; 200] =
    *b"00010203040506070809101112131415161718192021222324252627282930313233343536373839404142434445464748495051525354555657585960616263646566676869707172737475767778798081828384858687888990919293949596979899";

// Two digits as a word.
fn pair(number: usize) -> u64
    requires { number < 100 }
    ensures { (result ≡ pair_word number) × (result < 65536) }
{
    u64::from(u16::from_le_bytes([PAIRS[2 * number], PAIRS[2 * number + 1]]))
}

// Four digits as a word.
pub fn four(number: usize) -> u64
    requires { number < 10000 }
    ensures { (result ≡ pack (padded 4 number)) × (result < 4294967296) }
{
    pair(number / 100) + 65_536 * pair(number % 100)
}
