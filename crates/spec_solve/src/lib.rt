//! How a solve may end, and what may be answered: the relation, the two stated cold runs, and laws of both.
//!
//! | Item | What it is | Where |
//! |---|---|---|
//! | `MayEndCold` | how the cold part of a solve may end | specs/Order |
//! | `MayEnd` | how a solve may, of which a basis may be handed | specs/Order |
//! | `cold_over` | the two stated runs: over factors, and where they give up over whole tableaus | specs/Order |
//! | `GivesUp`, `IsChecked` | a cold end without an answer; one to which the checker says yes | specs/Order |
//! | `MayAnswer` | what a solve may end with, at the limit of the program and within a budget | specs/Answers |
//! | `HowFits`, `ColdFits`, `WarmFits` | how the end was found | specs/Answers |
//! | `IsSolved` | all that holds of what a solve ends with, of which a basis may be handed | specs/Answers |
//! | `ExactEnd`, `IsExactEnd` | what an exact solve ends with, whose numbers may have any width | src/exact, specs/Exact |
//! | `ExactAnswer`, `IsExactAnswer` | its answer, with a certificate that any reader can check | src/exact, specs/Exact |
//! | `MayGiveUp` | that a solve at 127 bits may end without an answer | specs/Exact |
//! | `IsOfBasis`, `StandsAt` | the certificate of a basis | specs/OfBasis |
//! | `enough_pivots` | so many pivots and flips as are enough | specs/Answers |
//!
//! All runs take a limit: `Some m` refuses numbers past m, `None` refuses nothing. The functions here have the laws as
//! their contracts.
//!
//! The solve over whole tableaus alone is that of `spec_runs`, the run over factors that of `spec_factor`.
#![tactic(auto)]

mod exact;

ghost use Rattle.std.specs.Prelude.{◌≡◌, ◌⊎◌, ℕ, List, Option, Some, None, Ok, Err, IfSome};
ghost use Rattle.spec_exact.specs.Fraction.{ℚ};
ghost use Rattle.spec_exact.specs.declared.past.Past.{Past};
ghost use Rattle.spec_exact.specs.Narrow.{number_limit};
ghost use Rattle.spec_model.specs.Model.{Model, value_of};
ghost use Rattle.spec_model.specs.Truth.{IsOptimal};
ghost use Rattle.spec_model.specs.Kept.{IsModel, IsUsual};
ghost use Rattle.spec_check.specs.declared.certificate.Certificate.{Certificate};
ghost use Rattle.spec_check.specs.declared.certificate.Certificate.TheVariants as certificate;
ghost use Rattle.spec_check.specs.declared.certificate.Known.{Known};
ghost use Rattle.spec_check.specs.declared.certificate.Known.TheVariants as known;
ghost use Rattle.spec_check.specs.Certificate.{IsFor, IsNarrowCertificate, Holds};
ghost use Rattle.spec_check.specs.Run.{check_run};
ghost use Rattle.spec_pivot.specs.declared.status.Status.{Status};
ghost use Rattle.spec_simplex.specs.declared.ends.FormFault.{FormFault};
ghost use Rattle.spec_simplex.specs.Form.{Form, form_of};
ghost use Rattle.spec_simplex.specs.Eliminate.{IsBasisOf};
ghost use Rattle.spec_simplex.specs.Phases.{PhasesEnd, phases_run};
ghost use Rattle.spec_check.specs.declared.solve_end.SolveEnd.TheVariants as outcome;
ghost use Rattle.spec_runs.specs.Cold.{ExactSolveEnd, certificate_of, basis_of, pivots_of, cold};
ghost use Rattle.spec_runs.specs.declared.ends.Route.TheVariants as route;
ghost use Rattle.spec_runs.specs.Solve.{SolveEnd, HasBasis, solve};
ghost use Rattle.spec_factor.specs.Over.{over_factors};
ghost use Rattle.spec_solve.specs.Order.{GivesUp, MayEndCold, MayEnd, cold_over};
ghost use Rattle.spec_solve.specs.Answers.{MayAnswer, IsSolved};
ghost use Rattle.spec_solve.specs.OfBasis.{StandsAt};
ghost use Rattle.spec_solve.specs.declared.exact.ExactEnd.TheVariants as exact;
ghost use Rattle.spec_solve.specs.Exact.{RationalAnswer, RationalEnd, IsShown, IsExactEnd};

pub use exact::{ExactAnswer, ExactEnd, Origin};

/// The cold part of a solve ends as the cold solve without a limit, or with an operation that is refused.
pub fn cold_parts_end_as_without_a_limit()
    ensures { (limit : Option ℕ) (budget : ℕ) (m : Model) (end : ExactSolveEnd) → MayEndCold limit budget m end →
        (end ≡ cold None budget m) ⊎ ((p : Past ℚ) × (end ≡ outcome.Past p)) }
{}

/// Where the cold part of a solve ends with an answer, this is true of the model, and the checker at the limit accepts
/// the certificate for it.
pub fn cold_parts_end_true()
    ensures { (limit : Option ℕ) (budget : ℕ) (m : Model) (known : Known ℚ) (cert : Certificate (List ℚ))
        (basis : Option (List Status)) (pivots : ℕ) →
        MayEndCold limit budget m (outcome.Ended known cert basis pivots) →
        Holds m known × IsFor m cert × (check_run limit m cert ≡ Ok known) }
{}

/// For a model with a form at the limit, the cold part of a solve gives up only where the run over factors does. Where
/// it gives up, for any model, it ends as the cold solve over whole tableaus at the limit.
pub fn both_cold_runs_give_up()
    ensures factors { (limit : Option ℕ) (budget : ℕ) (m : Model) (end : ExactSolveEnd) (f : Form) →
        form_of limit m ≡ Ok f → MayEndCold limit budget m end → GivesUp end → GivesUp (over_factors limit budget m f) }
    ensures tableaus { (limit : Option ℕ) (budget : ℕ) (m : Model) (end : ExactSolveEnd) →
        MayEndCold limit budget m end → GivesUp end → end ≡ cold limit budget m }
{}

/// For a model without a form at the limit the cold part of a solve ends as the cold solve over whole tableaus at the
/// limit.
pub fn models_without_a_form_end_as_the_cold_solve()
    ensures { (limit : Option ℕ) (budget : ℕ) (m : Model) (end : ExactSolveEnd) (fault : FormFault ℚ) →
        form_of limit m ≡ Err fault → MayEndCold limit budget m end → end ≡ cold limit budget m }
{}

/// The cold part of a solve may end as the two stated runs do: as the run over factors. Where that gives up, or the
/// model has no form at the limit, it may end as the solve over whole tableaus.
pub fn stated_runs_may_end_so()
    ensures { (limit : Option ℕ) (budget : ℕ) (m : Model) → MayEndCold limit budget m (cold_over limit budget m) }
{}

/// For a model with a form at the limit, the cold part of a solve may also end with what both phases without a limit
/// end with, whichever run finds it. The checker at the limit has to accept its certificate.
pub fn checked_ends_without_a_limit_may_be()
    ensures { (limit : Option ℕ) (budget : ℕ) (m : Model) (f : Form) (e : PhasesEnd) (known : Known ℚ) →
        form_of limit m ≡ Ok f → phases_run None budget f ≡ Ok e → check_run limit m (certificate_of e) ≡ Ok known →
        MayEndCold limit budget m (outcome.Ended known (certificate_of e) (basis_of e) (pivots_of e)) }
{}

/// Further runs take no answer away and change none. The cold part ends as the two stated runs, or these give up. A
/// solve ends as the one over whole tableaus alone, or that one gives up.
pub fn further_runs_only_add_answers()
    ensures stated { (limit : Option ℕ) (budget : ℕ) (m : Model) (end : ExactSolveEnd) →
        MayEndCold limit budget m end → (end ≡ cold_over limit budget m) ⊎ GivesUp (cold_over limit budget m) }
    ensures solve { (limit : Option ℕ) (budget : ℕ) (m : Model) (handed : Option (List Status)) (solved : SolveEnd) →
        MayEnd limit budget m handed solved →
        (solved ≡ solve limit budget m handed) ⊎ GivesUp (solve limit budget m handed).end }
{}

/// What a solve within any budget may answer of a model is true of it.
pub fn what_may_be_answered_is_true()
    ensures { (m : Model) (budget : ℕ) (known : Known ℚ) (cert : Certificate (List ℚ)) (basis : Option (List Status))
        (pivots : ℕ) →
        MayAnswer m budget (outcome.Ended known cert basis pivots) → Holds m known }
{}

/// Where the cold solve at the limit, within a budget, knows something of the model, each solve within this budget
/// answers the same. Its certificate, basis and count of pivots may be others.
pub fn what_the_cold_solve_finds_is_answered()
    ensures { (m : Model) (budget : ℕ) (known : Known ℚ) (cert : Certificate (List ℚ)) (basis : Option (List Status))
        (pivots : ℕ) (end : ExactSolveEnd) →
        cold (Some number_limit) budget m ≡ outcome.Ended known cert basis pivots → MayAnswer m budget end →
        (c : Certificate (List ℚ)) × (b : Option (List Status)) × (n : ℕ) × (end ≡ outcome.Ended known c b n) }
{}

/// A solve at the limit may end so exactly where the relation `MayEnd` allows it and its certificate, if there is one,
/// is for the model, with numbers of at most 127 bits. A basis that is handed must be one of the model's form.
pub fn answers_are_ends_of_solves()
    ensures allowed { (m : Model) (budget : ℕ) (handed : Option (List Status)) (solved : SolveEnd) →
        IfSome handed (HasBasis (Some number_limit) m) → MayEnd (Some number_limit) budget m handed solved →
        ((known : Known ℚ) (cert : Certificate (List ℚ)) (basis : Option (List Status)) (pivots : ℕ) →
        solved.end ≡ outcome.Ended known cert basis pivots → IsFor m cert × IsNarrowCertificate cert) →
        IsSolved m budget handed solved }
    ensures ends { (m : Model) (budget : ℕ) (handed : Option (List Status)) (solved : SolveEnd) →
        IsSolved m budget handed solved → MayEnd (Some number_limit) budget m handed solved }
    ensures certificates { (m : Model) (budget : ℕ) (handed : Option (List Status)) (solved : SolveEnd)
        (known : Known ℚ) (cert : Certificate (List ℚ)) (basis : Option (List Status)) (pivots : ℕ) →
        IsSolved m budget handed solved → solved.end ≡ outcome.Ended known cert basis pivots →
        IsFor m cert × IsNarrowCertificate cert }
{}

/// Without a handed basis, a solve of a model that may be kept may end as the two stated runs do at the limit.
pub fn stated_runs_are_solves()
    ensures { (m : Model) (budget : ℕ) → IsModel m →
        IsSolved m budget None (record { end = cold_over (Some number_limit) budget m; route = route.Cold }) }
{}

/// The basis that a solve leaves is one of the model's form, if any basis that was handed to it is.
pub fn solves_leave_bases_of_the_form()
    ensures { (m : Model) (budget : ℕ) (f : Form) (handed : Option (List Status)) (solved : SolveEnd)
        (known : Known ℚ) (cert : Certificate (List ℚ)) (left : List Status) (pivots : ℕ) →
        form_of (Some number_limit) m ≡ Ok f → IfSome handed (IsBasisOf f) → IsSolved m budget handed solved →
        solved.end ≡ outcome.Ended known cert (Some left) pivots → IsBasisOf f left }
{}

/// What an exact solve answers of a model is true of it.
pub fn exact_answers_are_true()
    ensures { (m : Model) (budget : ℕ) (starting : Option (List Status)) (a : RationalAnswer) →
        IsExactEnd m budget starting (exact.Answered a) → Holds m a.known }
{}

/// Two exact solves of a model give the same answer, whatever their budgets and the bases that they start from.
pub fn exact_answers_agree()
    ensures { (m : Model) (budget other : ℕ) (starting given : Option (List Status)) (a b : RationalAnswer) →
        IsExactEnd m budget starting (exact.Answered a) → IsExactEnd m other given (exact.Answered b) →
        a.known ≡ b.known }
{}

/// An exact answer that has a basis is an optimum. Its certificate's point and multipliers stand at this basis, and the
/// value at the point is the optimal one.
pub fn exact_answers_of_bases_are_optimal()
    ensures { (m : Model) (budget : ℕ) (starting : Option (List Status)) (a : RationalAnswer) (basis : List Status) →
        IsExactEnd m budget starting (exact.Answered a) → a.basis ≡ Some basis →
        (x : List ℚ) × (y : List ℚ) × (a.certificate ≡ certificate.Optimal x y) × StandsAt m basis x y
        × (a.known ≡ known.Optimal (value_of m x)) × IsOptimal m (value_of m x) }
{}

/// Where the cold solve at the limit, within a budget, knows something of a model within the usual limits, an exact
/// solve within this budget answers the same, whatever basis it starts from.
pub fn what_the_cold_solve_finds_is_answered_exactly()
    ensures { (m : Model) (budget : ℕ) (starting : Option (List Status)) (known : Known ℚ)
        (cert : Certificate (List ℚ)) (basis : Option (List Status)) (pivots : ℕ) (end : RationalEnd) → IsUsual m →
        cold (Some number_limit) budget m ≡ outcome.Ended known cert basis pivots → IsExactEnd m budget starting end →
        (a : RationalAnswer) × (end ≡ exact.Answered a) × (a.known ≡ known) }
{}

/// What a solve at 127 bits may answer is shown by the same certificate without a limit, so that an exact solve may
/// answer it.
pub fn narrow_answers_are_exact()
    ensures { (m : Model) (budget : ℕ) (known : Known ℚ) (cert : Certificate (List ℚ)) (basis : Option (List Status))
        (pivots : ℕ) →
        MayAnswer m budget (outcome.Ended known cert basis pivots) → IsShown m known cert }
{}
