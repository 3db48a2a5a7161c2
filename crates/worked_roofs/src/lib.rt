// Roofs against the second calculation: each at every site, in every job and in every code, through the maker, the reader and the
// local forces, as it is drawn from its other end, and with each pitch moved by a tenth; and what is counted of it.
#![tactic(auto)]

mod cases;
mod drops;
mod forces;
mod given;
mod made;
mod moved;
mod readings;
mod refusals;
mod tally;
mod turned;

pub use given::Given;
pub use made::Made;
pub use refusals::ExpectedRefusal;
pub use tally::Tally;
