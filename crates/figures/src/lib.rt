// The figures of a site and of a roof and the national ones, by value, and the refusals; the definitions of the value rules on figures,
// refusals 6 to 10, 18 and 19, stand here too.
#![tactic(auto)]

mod accepted_figures;
mod kind;
mod national;
mod refusal;
mod roof;
mod site;
mod sited_shape;
mod slopes;

pub use accepted_figures::AcceptedFigures;
pub use kind::Kind;
pub use national::{National, NationalSet};
pub use refusal::Refusal;
pub use roof::{AbuttingRoof, Arch, LowerRoof, Obstruction, ProjectionRoof, Roof, Shape};
pub use site::{Ground, Site, SiteData};
pub use sited_shape::SitedShape;
pub use slopes::{GuardedSlope, Slope, Spans, Valley};
