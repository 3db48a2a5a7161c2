// A site, and the data that an item has of one.

// Ground load sk in N/m²; Ce, Ct and Cesl in hundredths; altitude in m. Situation 1 has exceptional falls; it is a number, since any may be
// given, and 6 refuses those above 3. The day of a job is
// counted as the first days of national sets are; a site may have none.
#[derive(Clone, Copy, Debug, PartialEq, Eq)]
pub struct Site {
    pub sk: u32,
    pub ce: u16,
    pub ct: u16,
    pub cesl: u16,
    pub situation: u8,
    pub altitude: u16,
    pub day: Option<u16>,
}

// The ground load of an item's site: it is given, or a region and a zone of the map give it with the altitude.
#[derive(Clone, Copy, Debug, PartialEq, Eq)]
pub enum Ground {
    Given(u32),
    OnMap { region: u8, zone: u8 },
}

// A site as its item has it. It is apart from `Site`: one struct for both would name a load and its origin by one word, or put the other
// fields a level deeper in every definition.
#[derive(Clone, Copy, Debug, PartialEq, Eq)]
pub struct SiteData {
    pub ground: Ground,
    pub ce: u16,
    pub ct: u16,
    pub cesl: u16,
    pub situation: u8,
    pub altitude: u16,
    pub day: Option<u16>,
}
