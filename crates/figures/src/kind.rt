// The kinds of items.
ghost use Rattle.figures.specs.Kind.{NamesKind, HasKindNumber};

use crate::refusal::Refusal;

// What an item is: a site of either kind, or a roof. A roof of kind 9 is one of kind 4 with drifts in its valleys, one of kind 10 stands
// below another item as one of kind 6 does below a roof of its own.
#[derive(Clone, Copy, Debug, PartialEq, Eq)]
pub enum Kind {
    Site = 1,
    Monopitch,
    Pitched,
    MultiSpan,
    Cylindrical,
    Abutting,
    Projection,
    MapSite,
    DriftedMultiSpan,
    Stepped,
    Parapet,
    SmallProjection,
}

// The kind by the documents' number, which is an item's first byte.
impl TryFrom<u8> for Kind {
    type Error = Refusal;

    ghost try_from_gives = { NamesKind };

    fn try_from(number: u8) -> Result<Self, Refusal> {
        match number {
            1 => Ok(Kind::Site),
            2 => Ok(Kind::Monopitch),
            3 => Ok(Kind::Pitched),
            4 => Ok(Kind::MultiSpan),
            5 => Ok(Kind::Cylindrical),
            6 => Ok(Kind::Abutting),
            7 => Ok(Kind::Projection),
            8 => Ok(Kind::MapSite),
            9 => Ok(Kind::DriftedMultiSpan),
            10 => Ok(Kind::Stepped),
            11 => Ok(Kind::Parapet),
            12 => Ok(Kind::SmallProjection),
            _ => Err(Refusal::UnknownKind),
        }
    }
}

impl From<Kind> for u8 {
    ghost from_gives = { HasKindNumber };

    fn from(kind: Kind) -> u8 {
        kind as u8
    }
}
