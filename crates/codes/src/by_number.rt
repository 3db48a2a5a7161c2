// What a kind has by its number, of any number: what is no kind has no arrangement and no local force.
ghost use Rattle.std.specs.Prelude.{◌≡◌, ◌≤◌};
ghost use Rattle.standard.specs.Codes.{exists_in, last_code, forces_in};

use crate::RoofCodes;
use figures::Kind;

// Whether an arrangement exists for a kind with so many exceptional drifts in a situation.
pub fn has_code(kind: u8, situation: u8, drifts: u8, code: u8) -> bool
    ensures { result ≡ exists_in kind situation drifts code }
{
    match Kind::try_from(kind) {
        Ok(kind) => RoofCodes {
            kind,
            situation,
            drifts,
        }
        .has(code),
        Err(_) => false,
    }
}

// The last code that a kind with so many exceptional drifts may have in a situation.
pub fn last_code(kind: u8, situation: u8, drifts: u8) -> u8
    requires { drifts ≤ 15 }
    ensures { result ≡ last_code kind situation drifts }
{
    match Kind::try_from(kind) {
        Ok(kind) => RoofCodes {
            kind,
            situation,
            drifts,
        }
        .last(),
        Err(_) => 13,
    }
}

// Whether a kind has local forces.
pub fn has_forces(kind: u8) -> bool
    ensures { result ≡ forces_in kind }
{
    matches!(Kind::try_from(kind), Ok(Kind::Monopitch | Kind::Pitched))
}
