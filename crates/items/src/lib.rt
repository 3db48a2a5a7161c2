// What an item's bytes say: a site, a roof, or a lower roof, or the refusal of their form; and a roof's spans.
#![tactic(auto, unfolding(crate::specs::Items::by_kind, crate::specs::Items::content))]

ghost use Rattle.std.specs.Prelude.{◌≡◌, Ok};
ghost use Rattle.item_forms.specs.Forms.{is_lower};
ghost use Rattle.item_forms.specs.declared.Item.TheVariants.{RoofItem};
ghost use Rattle.span_items.specs.SpanItems.{spans_said, with_spans};
ghost use Rattle.items.specs.Items.{content};

use figures::{Kind, Refusal, Shape, Spans};
pub use item_forms::{Decoded, Item};
use roof_items::{
    LOWER_LENGTH, abutting_item, cylindrical_item, lower_item, monopitch_item, parapet_item,
    pitched_item, projection_item, small_projection_item,
};
use site_items::{map_site_item, site_item};
use span_items::{drifted_content, multi_span_content, with_spans};

// What an item's bytes say. It asks for its kind and its length alone; the value rules are the figures'. One match names each kind's
// function once: a table of functions would stand beside it.
pub fn content_of(p: &[u8]) -> Result<Item, Refusal>
    ensures { result ≡ content p.now }
{
    let number = p.first().copied().ok_or(Refusal::ItemLength)?;
    match Kind::try_from(number)? {
        Kind::Site => site_item(p),
        Kind::Monopitch => monopitch_item(p),
        Kind::Pitched => pitched_item(p),
        Kind::MultiSpan => multi_span_content(p),
        Kind::Cylindrical => cylindrical_item(p),
        Kind::Abutting => abutting_item(p),
        Kind::Projection => projection_item(p),
        Kind::MapSite => map_site_item(p),
        Kind::DriftedMultiSpan => drifted_content(p),
        Kind::Stepped => lower_item(p),
        Kind::Parapet => parapet_item(p),
        Kind::SmallProjection => small_projection_item(p),
    }
}

// The spans of the roof that an item's bytes say, whose shape was decoded from them.
#[tactic(auto, using(crate::proofs::Numbered::spans_there))]
pub fn spans_in(p: &[u8], shape: Shape) -> Spans
    requires { content p.now ≡ Ok (RoofItem shape) }
    ensures { result ≡ spans_said shape p.now }
{
    span_items::spans_in(p, shape)
}

// What an item's bytes say, with the spans of a multi-span roof beside it. The reading of a sheet takes the two apart, since the spans are
// large and few items have them.
#[tactic(auto, using(crate::proofs::Numbered::spans_held))]
pub fn decode(p: &[u8]) -> Decoded
    ensures { result ≡ with_spans (content p.now) p.now }
{
    with_spans(p, content_of(p))
}

// Whether an item's bytes are a lower roof's. It is told by the kind and the length, without decoding.
pub fn is_lower(p: &[u8]) -> bool
    ensures { result ≡ is_lower (content p.now) }
{
    p.len() == LOWER_LENGTH && p[0] == u8::from(Kind::Stepped)
}
