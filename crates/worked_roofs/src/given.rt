// What every call is given, and the calls on it. A refusal is told by the documents' number.
use figures::{Roof, Site};

// What is added to the number of a refusal in the place of a load.
const REFUSED: u32 = 4_000_000_000;

// A lent store, a site with the day of its job, and a roof.
#[derive(Clone, Copy)]
pub struct Given<'a> {
    pub store: &'a [u32],
    pub site: Site,
    pub roof: &'a Roof,
}

// One line a call: they differ in the call and its arguments.
impl Given<'_> {
    // How many segments the maker puts into a slice.
    pub fn make(&self, code: u8, out: &mut [u32]) -> Result<usize, u8> {
        arrangement::make(self.store, self.site, *self.roof, code, out).map_err(u8::from)
    }

    // The load read at a station.
    pub fn load(&self, code: u8, station: u32) -> Result<u32, u8> {
        reading::load_at(self.store, self.site, *self.roof, code, station).map_err(u8::from)
    }

    // The load read at a station. A refusal is told by a number above any load: 4,000,000,000 and the documents' number.
    pub(crate) fn load_or_refusal(&self, code: u8, station: u32) -> u32 {
        self.load(code, station)
            .unwrap_or_else(|number| REFUSED + u32::from(number))
    }

    // The force at the eave of a slope.
    pub fn overhang(&self, slope: u8) -> Result<Option<u32>, u8> {
        local_forces::overhang(self.store, self.site, *self.roof, slope).map_err(u8::from)
    }

    // The force on the guard of a slope.
    pub fn guard_force(&self, slope: u8) -> Result<Option<u32>, u8> {
        local_forces::guard_force(self.store, self.site, *self.roof, slope).map_err(u8::from)
    }
}
