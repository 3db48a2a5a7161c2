// The forms that items of every kind share: what an item says, its length, and a slope among its bytes.
#![tactic(auto)]

ghost use Rattle.std.specs.Prelude.{◌≡◌, ◌≢◌, ◌+◌, ◌≤◌, MatchResult, length};
ghost use Rattle.item_forms.specs.Forms.{slope_at};

use figures::{LowerRoof, Refusal, Shape, SiteData, Slope, Spans};
use little_endian::{u16_at, u32_at};

// What an item's bytes say: a site, a roof by its shape, or a lower roof whose shape an upper item completes. The spans of a multi-span
// roof stay in its bytes, and are read from there where they are needed.
#[derive(Clone, Copy, Debug, PartialEq, Eq)]
pub enum Item {
    SiteItem(SiteData),
    RoofItem(Shape),
    LowerItem(LowerRoof),
}

// An item, or its refusal, with the spans of a multi-span roof beside it; any other has none there.
#[derive(Clone, Copy, Debug, PartialEq, Eq)]
pub struct Decoded {
    pub item: Result<Item, Refusal>,
    pub spans: Spans,
}

// An item that isn't of its kind's length is refused.
pub fn check_length(p: &[u8], n: usize) -> Result<(), Refusal>
    ensures { MatchResult result (λ _. length p.now ≡ n) (λ e. (e ≡ Refusal.ItemLength) × (length p.now ≢ n)) }
{
    if p.len() == n {
        Ok(())
    } else {
        Err(Refusal::ItemLength)
    }
}

// A slope whose pitch and width begin at two bytes.
pub fn slope_at(p: &[u8], pitch: usize, width: usize) -> Slope
    requires { (pitch + 2 ≤ length p.now) × (width + 4 ≤ length p.now) }
    ensures { result ≡ slope_at p.now pitch width }
{
    Slope {
        pitch: u32::from(u16_at(p, pitch)),
        width: u32_at(p, width),
    }
}
