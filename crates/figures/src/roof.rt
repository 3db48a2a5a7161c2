// A roof: its shape, with the slopes and valleys of a multi-span roof beside it.
ghost use Rattle.std.specs.Prelude.{◌≡◌};
ghost use Rattle.figures.specs.Kind.{kind_number};
ghost use Rattle.figures.specs.RoofRules.{kind_of, drifts_of};

use crate::kind::Kind;
use crate::slopes::{GuardedSlope, Spans};

// A cylindrical roof: its rise and its span in mm.
#[derive(Clone, Copy, Debug, PartialEq, Eq)]
pub struct Arch {
    pub rise: u32,
    pub span: u32,
}

// A lower flat roof at a taller one: the width b1 of that, its own width b2 and the step h in mm, and the slope above the step. It is
// stepped where its upper figures come from another item of its sheet.
#[derive(Clone, Copy, Debug, PartialEq, Eq)]
pub struct AbuttingRoof {
    pub b1: u32,
    pub b2: u32,
    pub h: u32,
    pub slope: GuardedSlope,
    pub stepped: bool,
}

// A projection on a flat roof: its height, and the roof's widths at its left and its right in mm.
#[derive(Clone, Copy, Debug, PartialEq, Eq)]
pub struct ProjectionRoof {
    pub h: u32,
    pub left: u32,
    pub right: u32,
}

// A lower roof as its item has it: its width b2 and its step h, the index of the upper item that it stands at, and the side
// of that item that is adjacent, 0 left and 1 right; 8 refuses other sides.
#[derive(Clone, Copy, Debug, PartialEq, Eq)]
pub struct LowerRoof {
    pub b2: u32,
    pub h: u32,
    pub upper: u8,
    pub side: u8,
}

// What an exceptional drift of Annex B lies at. A parapet has the roof behind it, b1, and a width b2 that its load alone asks for;
// a projection up to 1 m high has a height and a width on each side, left then right.
#[derive(Clone, Copy, Debug, PartialEq, Eq)]
pub enum Obstruction {
    Parapet { h: u32, b1: u32, b2: u32 },
    SmallProjection { h1: u32, h2: u32, b1: u32, b2: u32 },
}

// The shape of a roof. A multi-span roof has drifts in its valleys by Annex B, or none.
#[derive(Clone, Copy, Debug, PartialEq, Eq)]
pub enum Shape {
    Monopitch(GuardedSlope),
    Pitched {
        left: GuardedSlope,
        right: GuardedSlope,
    },
    MultiSpan {
        count: u8,
        drifts: bool,
    },
    Cylindrical(Arch),
    Abutting(AbuttingRoof),
    Projection(ProjectionRoof),
    Obstructed(Obstruction),
}

// A roof. Other shapes than multi-span have no slopes and no valleys in their spans: zeros, which no rule reads.
#[derive(Clone, Copy, Debug, PartialEq, Eq)]
pub struct Roof {
    pub shape: Shape,
    pub spans: Spans,
}

impl Shape {
    // The kind of the roof's item.
    pub fn kind(self) -> Kind
        ensures { kind_number result ≡ kind_of self }
    {
        match self {
            Shape::Monopitch(_) => Kind::Monopitch,
            Shape::Pitched { .. } => Kind::Pitched,
            Shape::MultiSpan { drifts: false, .. } => Kind::MultiSpan,
            Shape::MultiSpan { drifts: true, .. } => Kind::DriftedMultiSpan,
            Shape::Cylindrical(_) => Kind::Cylindrical,
            Shape::Abutting(AbuttingRoof { stepped: false, .. }) => Kind::Abutting,
            Shape::Abutting(AbuttingRoof { stepped: true, .. }) => Kind::Stepped,
            Shape::Projection(_) => Kind::Projection,
            Shape::Obstructed(Obstruction::Parapet { .. }) => Kind::Parapet,
            Shape::Obstructed(Obstruction::SmallProjection { .. }) => Kind::SmallProjection,
        }
    }

    // How many exceptional drifts a roof has room for: one in each valley of a multi-span roof, one at an obstruction.
    pub fn drifts(self) -> u8
        ensures { result ≡ drifts_of self }
    {
        match self {
            Shape::MultiSpan { count, .. } => count.saturating_sub(1),
            Shape::Obstructed(_) => 1,
            _ => 0,
        }
    }
}
