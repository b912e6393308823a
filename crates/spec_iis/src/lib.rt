//! Irreducible infeasible subsets: sets of single limits and bounds that no point meets together, though each set of
//! all but one is met.
//!
//! | Item | What it is | Where |
//! |---|---|---|
//! | `Side` | a single limit of a row, or a single bound of a column | src/side |
//! | `Iis` | what a search for such a set ends with | src/outcome |
//! | `IsSide`, `Meets` | a side that a model has, and a point that meets it | specs/Sides |
//! | `only` | the model with some of its sides alone | specs/Only |
//! | `IsIrreducible` | no point meets the sides together, though each set of all but one is met | specs/Irreducible |
//! | `used`, `used_among` | the sides that a certificate uses | specs/Rule |
//! | `IsClash` | a few of some sides that no point meets together | specs/Rule |
//! | `Reaches`, `IsFiltered` | the rule by which sides are left out, and what holds on its way | specs/Rule |
//! | `MayFind` | what a search may end with, at the limit of the program and within a budget for each solve | specs/Found |
//!
//! The functions here have the laws as their contracts.
//!
//! The rule is the deletion filter (Chinneck and Dravnieks, Locating minimal infeasible constraint sets in linear
//! programs, ORSA Journal on Computing 3, 1991), which begins with the sides that one certificate uses.
#![tactic(auto)]

mod outcome;
mod side;

ghost use Rattle.std.specs.Prelude.{◌≡◌, ◌↔◌, ◌++◌, ◌∷◌, [], ℕ, List, All, Option, Ok, false};
ghost use Rattle.spec_exact.specs.Fraction.{ℚ};
ghost use Rattle.spec_model.specs.Model.{Model};
ghost use Rattle.spec_model.specs.Kept.{IsUsualModel, IsNarrowRow};
ghost use Rattle.spec_model.specs.Truth.{IsFeasible, IsInfeasible};
ghost use Rattle.spec_check.specs.declared.certificate.Certificate.{Certificate};
ghost use Rattle.spec_check.specs.declared.certificate.Known.TheVariants as known;
ghost use Rattle.spec_check.specs.Certificate.{IsFor};
ghost use Rattle.spec_check.specs.Run.{check_run};
ghost use Rattle.spec_iis.specs.declared.side.Side.{Side};
ghost use Rattle.spec_iis.specs.Sides.{IsSide, MeetsAll, is_listed, Among};
ghost use Rattle.spec_iis.specs.Only.{only};
ghost use Rattle.spec_iis.specs.Irreducible.{IsIrreducible, ArePointsWithout};
ghost use Rattle.spec_iis.specs.Rule.{used, used_among, IsClash, IsFiltered, IsRead};

pub use outcome::Iis;
pub use side::Side;

/// The points that are feasible in a model with some of its sides alone are those that have one value for each column
/// and meet each of these sides.
pub fn points_of_sides_meet_them()
    ensures { (m : Model) (sides : List Side) (z : List ℚ) →
        All (IsSide m) sides → (IsFeasible (only m sides) z ↔ MeetsAll m sides z) }
{}

/// A point that is feasible in a model with some of its sides alone is feasible in it with fewer of them alone.
pub fn fewer_sides_have_more_points()
    ensures { (m : Model) (few more : List Side) (z : List ℚ) → All (IsSide m) more →
        Among few more → IsFeasible (only m more) z → IsFeasible (only m few) z }
{}

/// The sides that an accepted certificate of infeasibility uses are sides of the model, and no point meets them
/// together. Where the certificate is accepted at a limit, none of their limits is refused there.
pub fn used_sides_are_infeasible()
    ensures present { (limit : Option ℕ) (m : Model) (cert : Certificate (List ℚ)) → IsFor m cert →
        check_run limit m cert ≡ Ok known.Infeasible → All (IsSide m) (used m cert) }
    ensures infeasible { (limit : Option ℕ) (m : Model) (cert : Certificate (List ℚ)) → IsFor m cert →
        check_run limit m cert ≡ Ok known.Infeasible → IsInfeasible (only m (used m cert)) }
    ensures read { (limit : Option ℕ) (m : Model) (cert : Certificate (List ℚ)) →
        check_run limit m cert ≡ Ok known.Infeasible → All (IsRead limit m) (used m cert) }
{}

/// Where the checker accepts a certificate of infeasibility for a model with some of its sides alone, those of them
/// that the certificate uses are infeasible together.
pub fn sides_that_a_certificate_uses_clash()
    ensures { (limit : Option ℕ) (m : Model) (sides : List Side) (cert : Certificate (List ℚ)) → All (IsSide m) sides →
        IsFor (only m sides) cert → check_run limit (only m sides) cert ≡ Ok known.Infeasible →
        IsClash m sides (used_among m sides cert) }
{}

/// Where no point meets a few of a model's sides, no point meets these and more of its sides. A few of some sides are
/// still among them without any one that is none of the few.
pub fn sides_beside_a_clash_are_not_needed()
    ensures all { (m : Model) (sides few : List Side) → All (IsSide m) sides → IsClash m sides few →
        IsInfeasible (only m sides) }
    ensures others { (m : Model) (kept : List Side) (x : Side) (rest few : List Side) →
        IsClash m (kept ++ x ∷ rest) few → is_listed few x ≡ false → IsClash m (kept ++ rest) few }
{}

/// A usual model with some of its sides alone is a usual model, if the limits in it have at most 127 bits.
pub fn sides_alone_may_be_kept()
    ensures { (m : Model) (sides : List Side) →
        IsUsualModel m → All IsNarrowRow (only m sides).rows → IsUsualModel (only m sides) }
{}

/// Where no side is left to be tried, the sides that the rule keeps are irreducible. The rule begins with sides that
/// are infeasible together. It leaves out a side without which all the remaining sides are still infeasible together,
/// and keeps a side with a point that meets all the remaining ones.
pub fn the_rule_keeps_what_is_needed()
    ensures begin { (m : Model) (sides : List Side) →
        All (IsSide m) sides → IsInfeasible (only m sides) → IsFiltered m [] sides [] }
    ensures without { (m : Model) (kept : List Side) (x : Side) (rest : List Side) (points : List (List ℚ)) →
        IsFiltered m kept (x ∷ rest) points → IsInfeasible (only m (kept ++ rest)) → IsFiltered m kept rest points }
    ensures with { (m : Model) (kept : List Side) (x : Side) (rest : List Side) (points : List (List ℚ)) (z : List ℚ) →
        IsFiltered m kept (x ∷ rest) points → IsFeasible (only m (kept ++ rest)) z →
        IsFiltered m (kept ++ x ∷ []) rest (points ++ z ∷ []) }
    ensures end { (m : Model) (kept : List Side) (points : List (List ℚ)) →
        IsFiltered m kept [] points → IsIrreducible m kept × ArePointsWithout m kept points }
{}
