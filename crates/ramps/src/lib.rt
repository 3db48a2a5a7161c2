// A segment's ramp, with its break loads rounded, and the reading in it.
#![tactic(auto)]

ghost use Rattle.std.specs.Prelude.{◌≡◌, ◌≤◌};
ghost use Rattle.ramps.specs.Ramps.{RoundedStretch, RampIn, read_ramp};
ghost use Rattle.standard.specs.Units.{largest_position, largest_break, largest_load};

use standard::PARTS;
use std::marker::Model;

// A part of an uncut ramp: its length on the roof, how far into the ramp it begins, the ramp's whole length, and the ramp's
// break loads. Lengths in quarter millimetres, loads in tenths of a N/m².
#[derive(Clone, Copy)]
pub struct Ramp {
    pub extent: u64,
    pub skip: u64,
    pub full: u64,
    pub from: u64,
    pub to: u64,
}

impl Model for Ramp {
    ghost Value = { RoundedStretch };

    ghost view = { λ r. record { extent = r.extent; skip = r.skip; full = r.full; from = r.from; to = r.to } };

    ghost invariant = { λ r. RampIn (record { extent = r.extent; skip = r.skip; full = r.full; from = r.from; to = r.to }) };

    ghost inverse = { λ r. record { extent = r.extent; skip = r.skip; full = r.full; from = r.from; to = r.to } };
}

impl Ramp {
    // A whole ramp.
    pub fn whole(extent: u64, from: u64, to: u64) -> Self
        requires { (1 ≤ extent) × (extent ≤ largest_position) × (from ≤ largest_break) × (to ≤ largest_break) }
        ensures { result ≡ record { extent = extent; skip = 0; full = extent; from = from; to = to } }
    {
        Ramp {
            extent,
            skip: 0,
            full: extent,
            from,
            to,
        }
    }

    // A stretch of one load.
    pub fn even(extent: u64, load: u64) -> Self
        requires { (1 ≤ extent) × (extent ≤ largest_position) × (load ≤ largest_break) }
        ensures { result ≡ record { extent = extent; skip = 0; full = extent; from = load; to = load } }
    {
        Self::whole(extent, load, load)
    }

    // The reading x into the part in N/m²: the line between its break loads, rounded up once, at the end.
    pub fn reading(self, x: u64) -> u64
        requires { x ≤ self.extent }
        ensures { (result ≡ read_ramp self x) × (result ≤ largest_load) }
    {
        let along = self.skip + x;
        // At an end of the uncut ramp its break load is read.
        if along == 0 {
            return rounding::ceil_div(self.from, PARTS);
        }
        let left = self.full - along;
        if left == 0 {
            return rounding::ceil_div(self.to, PARTS);
        }
        rounding::ceil_div(self.from * left + self.to * along, PARTS * self.full)
    }
}
