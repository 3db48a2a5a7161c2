// A place on the map, with refusals 7, 14 and 15, and the site that an item's data are.
#![tactic(auto)]

mod map;
mod sites;

pub use map::ground_load;
pub use sites::{check_site_data, site_from};
