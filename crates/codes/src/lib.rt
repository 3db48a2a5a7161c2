// Which arrangements and local forces exist, and which drift a code names.
#![tactic(auto)]

mod by_number;

ghost use Rattle.std.specs.Prelude.{◌≡◌, ◌≤◌, true, cond, Some, None};
ghost use Rattle.figures.specs.Kind.{kind_number};
ghost use Rattle.figures.specs.Ranges.{within};
ghost use Rattle.figures.specs.RoofRules.{kind_of, drifts_of};
ghost use Rattle.standard.specs.Codes.{persistent_by, drifts_in, accidental, base_code, accidental_in, names_drift, drift_named, exists_in, first_code, last_code};

pub use by_number::{has_code, has_forces, last_code};
use figures::{Kind, Shape};

// What the codes of a roof depend on: its kind, the situation, and how many exceptional drifts it has room for. Codes are document 01's
// numbers, since a call may ask for any.
#[derive(Clone, Copy, Debug, PartialEq, Eq)]
pub struct RoofCodes {
    pub kind: Kind,
    pub situation: u8,
    pub drifts: u8,
}

impl RoofCodes {
    // The codes of a roof of a shape.
    pub fn of(shape: Shape, situation: u8) -> Self
        ensures { (kind_number result.kind ≡ kind_of shape) × (result.situation ≡ situation) × (result.drifts ≡ drifts_of shape) }
    {
        RoofCodes {
            kind: shape.kind(),
            situation,
            drifts: shape.drifts(),
        }
    }

    // Whether the roof is a parapet's or a small projection's.
    fn is_obstructed(self) -> bool
        ensures { result ≡ within 11 12 (kind_number self.kind) }
    {
        matches!(self.kind, Kind::Parapet | Kind::SmallProjection)
    }

    // Whether a roof has exceptional drifts: in its valleys, in place of code 2, or at an obstruction.
    fn has_drifts(self) -> bool
        ensures { result ≡ drifts_in (kind_number self.kind) self.situation }
    {
        let can_drift = self.kind == Kind::DriftedMultiSpan || self.is_obstructed();
        can_drift && (2..=3).contains(&self.situation)
    }

    // Whether the accidental code of a shape exists where its persistent one does.
    fn has_accidental(self, code: u8) -> bool
        requires { accidental code ≡ true }
        ensures { result ≡ accidental_in (kind_number self.kind) self.situation code }
    {
        let allowed = self.situation == 1 || self.situation == 3 && code == 11;
        allowed && self.kind != Kind::Projection && is_persistent(self.kind, code - 10)
    }

    // Whether an arrangement exists.
    #[tactic(auto, unfolding(standard::specs::Codes::exists_in))]
    pub fn has(self, code: u8) -> bool
        ensures { result ≡ exists_in (kind_number self.kind) self.situation self.drifts code }
    {
        if is_accidental(code) {
            return self.has_accidental(code);
        }
        let drifting = self.has_drifts();
        is_persistent(self.kind, code) && !(drifting && code == 2)
            || drifting && named_drift(self.drifts, code).is_some()
    }

    // The first code that may exist.
    pub fn first(self) -> u8
        ensures { result ≡ first_code (kind_number self.kind) }
    {
        if self.is_obstructed() { 31 } else { 1 }
    }

    // The last code that may exist, a number as any that may be asked for.
    pub fn last(self) -> u8
        requires { self.drifts ≤ 15 }
        ensures { result ≡ last_code (kind_number self.kind) self.situation self.drifts }
    {
        if self.has_drifts() {
            30 + self.drifts
        } else {
            13
        }
    }
}

// Whether a kind has the shape of a persistent code.
fn is_persistent(kind: Kind, code: u8) -> bool
    ensures { result ≡ persistent_by (kind_number kind) code }
{
    match kind {
        Kind::Monopitch => code == 1,
        Kind::Pitched => (1..=3).contains(&code),
        Kind::MultiSpan | Kind::DriftedMultiSpan => (1..=2).contains(&code),
        Kind::Cylindrical | Kind::Abutting | Kind::Stepped => (1..=2).contains(&code),
        Kind::Projection => code == 2,
        Kind::Parapet | Kind::SmallProjection | Kind::Site | Kind::MapSite => false,
    }
}

// Whether a code is one of the accidental ones, which are the shapes of 1, 2 and 3.
pub fn is_accidental(code: u8) -> bool
    ensures { result ≡ accidental code }
{
    (11..=13).contains(&code)
}

// The persistent code of the same shape, a number as any that may be asked for.
pub fn base_code(code: u8) -> u8
    ensures { result ≡ base_code code }
{
    if is_accidental(code) { code - 10 } else { code }
}

// The drift that a code names among so many, from 0 at the left.
pub fn named_drift(drifts: u8, code: u8) -> Option<usize>
    ensures { result ≡ cond (names_drift drifts code) (Some (drift_named code)) None }
{
    let drift = code.checked_sub(31)?;
    (drift < drifts).then_some(usize::from(drift))
}
