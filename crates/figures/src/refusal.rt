// The refusals of sheets, figures and calls.
ghost use Rattle.figures.specs.Refusal.{HasNumber};

// Why a call refuses, in the order of the documents' numbers 1 to 19.
#[derive(Clone, Copy, Debug, PartialEq, Eq)]
pub enum Refusal {
    SheetLimits = 1,
    Pair,
    UnknownKind,
    ItemLength,
    SitePlace,
    SiteField,
    Altitude,
    RoofField,
    ValleyPitch,
    Rise,
    Slice,
    PastTheEnd,
    NoArrangement,
    RegionOrZone,
    MapLoad,
    UpperItem,
    Circle,
    Store,
    NoSetBegun,
}

// The documents' number of a refusal.
impl From<Refusal> for u8 {
    ghost from_gives = { HasNumber };

    fn from(refusal: Refusal) -> u8 {
        refusal as u8
    }
}
