// Figures that no rule on values refuses.
ghost use Rattle.std.specs.Prelude.{◌≡◌};
ghost use Rattle.figures.specs.Bounds.{FiguresIn};

use crate::national::National;
use crate::roof::Roof;
use crate::site::Site;
use crate::sited_shape::SitedShape;

// An accepted site and roof, with the national figures that the site's job uses.
#[derive(Clone, Copy)]
pub struct AcceptedFigures {
    pub national: National,
    pub site: Site,
    pub roof: Roof,
    ghost accepted: { FiguresIn national site roof },
}

impl AcceptedFigures {
    // The site and the roof's shape.
    #[tactic(auto, using(crate::proofs::Sides::slopes_in))]
    pub fn sited(&self) -> SitedShape
        ensures { (result.site ≡ self.now.site) × (result.shape ≡ self.now.roof.shape) }
    {
        SitedShape {
            site: self.site,
            shape: self.roof.shape,
        }
    }
}
