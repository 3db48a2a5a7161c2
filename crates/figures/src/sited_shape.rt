// A site and a roof's shape, as local forces need them.
ghost use Rattle.std.specs.Prelude.{◌≡◌};
ghost use Rattle.figures.specs.SiteRules.{site_refusal};
ghost use Rattle.figures.specs.Slopes.{SlopesIn};

use crate::roof::Shape;
use crate::site::Site;

// A site that no value rule refuses, and a shape whose slopes keep their bounds: less than accepted figures, since local forces need no
// spans and no national figures.
#[derive(Clone, Copy)]
pub struct SitedShape {
    pub site: Site,
    pub shape: Shape,
    ghost accepted: { site_refusal site ≡ 0 },
    ghost slopes: { SlopesIn shape },
}
