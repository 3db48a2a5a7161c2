// Table C.1 of EN 1991-1-3: the load on the ground by region, zone and altitude. For the crates above, which have the refusals.
// Each call asks what it uses of a place or a row: a type for a place would say its three numbers again.
#![tactic(auto)]

mod load;
mod table;

pub use load::table_load;
