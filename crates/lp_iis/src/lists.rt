// Lists of sides and of points, and what a search ends with.
use lp_base::Items;
use lp_check::Certificate;
use lp_frac::Fracs;
use lp_solve::End;
use spec_iis::Side;

/// A list of sides.
pub type Sides = Items<Side>;

/// A list of points.
pub type Points = Items<Fracs>;

/// What a search for an irreducible infeasible subset ends with.
pub type Iis = spec_iis::Iis<Sides, Certificate, Points, End>;
