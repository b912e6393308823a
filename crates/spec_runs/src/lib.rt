//! The cold solve of a model: its definition, and the law that its end is true.
//!
//! | Item | What it is | Where |
//! |---|---|---|
//! | `ExactSolveEnd` | how a solve ends, in exact numbers | specs/Cold |
//! | `cold` | the cold solve of a model, at a limit and within a budget | specs/Cold |
//! | `certificate_of`, `basis_of` | the certificate and the basis of what both phases end with | specs/Cold |
//! | `IsAccepted`, `IsAnswered` | what is promised of a certificate and of an answer | specs/Accepted |
//! | `IsNext`, `IsAfter` | the tableau after a step, and after many | specs/Steps |
//! | `BeginsPhaseTwo` | the tableau with which phase two begins | specs/Steps |
//! | `warm`, `solve`, `IsBased` | the warm start from a basis, and the solve to which one may be handed, with their laws | src/warm, specs/Warm, specs/Solve, specs/Based |
//!
//! The functions here have the laws as their contracts. Each law holds at every limit: a run at a limit that gives a
//! result gives the exact one.
//!
//! The run on lists is that of `spec_simplex`, what its steps mean is said in `spec_simplex`, and the certificates and
//! their checker are those of `spec_check`.
#![tactic(auto)]

mod ends;
mod warm;

ghost use Rattle.std.specs.Prelude.{◌≡◌, ◌≢◌, ◌⊎◌, ◌+◌, ◌-◌, ◌*◌, ◌^◌, ◌<◌, ◌≤◌, ℕ, List, Option, None, Ok, Err};
ghost use Rattle.spec_exact.specs.Fraction.{ℚ};
ghost use Rattle.spec_exact.specs.declared.past.Past.{Past};
ghost use Rattle.spec_model.specs.Model.{Model, width, height};
ghost use Rattle.spec_check.specs.declared.certificate.Certificate.{Certificate};
ghost use Rattle.spec_check.specs.declared.certificate.Certificate.TheVariants as certificate;
ghost use Rattle.spec_check.specs.declared.certificate.Known.{Known};
ghost use Rattle.spec_check.specs.Certificate.{Holds};
ghost use Rattle.spec_check.specs.Run.{check_run};
ghost use Rattle.spec_pivot.specs.declared.status.Status.{Status};
ghost use Rattle.spec_simplex.specs.declared.ends.Choice.TheVariants.{End};
ghost use Rattle.spec_simplex.specs.declared.ends.FormFault.TheVariants as fault;
ghost use Rattle.spec_simplex.specs.declared.ends.PrimalEnd.{PrimalEnd};
ghost use Rattle.spec_simplex.specs.declared.ends.RunStop.TheVariants as stop;
ghost use Rattle.spec_simplex.specs.Form.{Form, form_of};
ghost use Rattle.spec_simplex.specs.Tableau.{Tableau};
ghost use Rattle.spec_simplex.specs.Start.{start_of};
ghost use Rattle.spec_simplex.specs.Step.{choice_run};
ghost use Rattle.spec_simplex.specs.Phases.{PrimalEnded, PhasesEnd, Infeasible, Finished, run_from, phases_run};
ghost use Rattle.spec_check.specs.declared.solve_end.SolveEnd.TheVariants as outcome;
ghost use Rattle.spec_runs.specs.Cold.{cold, certificate_of};
ghost use Rattle.spec_runs.specs.Accepted.{IsAccepted, IsAnswered};
ghost use Rattle.spec_runs.specs.Steps.{IsNext, IsAfter, BeginsPhaseTwo};

pub use ends::{Fall, Route, Warm};
pub use warm::{
    bases_begin_tableaus, dual_choices_mean_steps, ends_leave_bases, fits_mean_methods,
    singular_bases_depend, warm_ends_are_accepted, warm_ends_true, warm_limits_only_refuse,
};

/// The certificate of what both phases end with, or of a clash, is accepted without a limit, and at a limit unless an
/// operation is refused.
pub fn ends_are_accepted()
    ensures phases { (limit : Option ℕ) (budget : ℕ) (m : Model) (f : Form) (e : PhasesEnd) →
        form_of limit m ≡ Ok f → phases_run limit budget f ≡ Ok e → IsAccepted limit m (certificate_of e) }
    ensures clash { (limit : Option ℕ) (m : Model) (j : ℕ) →
        form_of limit m ≡ Err (fault.Clash j) → IsAccepted limit m (certificate.Clash j) }
{}

/// Where a cold solve ends with an answer, this is true, and the checker at the limit accepts the certificate for it.
/// It is spent only where the phases are.
pub fn cold_ends_true()
    ensures ended { (limit : Option ℕ) (budget : ℕ) (m : Model) (answer : Known ℚ)
        (cert : Certificate (List ℚ)) (basis : Option (List Status)) (pivots : ℕ) →
        cold limit budget m ≡ outcome.Ended answer cert basis pivots →
        Holds m answer × (check_run limit m cert ≡ Ok answer) }
    ensures spent { (limit : Option ℕ) (budget : ℕ) (m : Model) →
        cold limit budget m ≡ outcome.Spent →
        (f : Form) × (form_of limit m ≡ Ok f) × (phases_run limit budget f ≡ Err stop.Spent) }
{}

/// A run goes by steps from one tableau to the next, by as many as it counts to the one that it ends with. Where its
/// budget is spent, it goes by as many as that has. Without a limit each tableau is at an end, or has a next one.
pub fn runs_go_by_steps()
    ensures ended { (limit : Option ℕ) (left used : ℕ) (t : Tableau) (e : PrimalEnded) →
        run_from limit left used t ≡ Ok e → (k : ℕ) × (e.used ≡ used + k) × IsAfter limit k t e.tableau }
    ensures spent { (limit : Option ℕ) (left used : ℕ) (t : Tableau) →
        run_from limit left used t ≡ Err stop.Spent → (u : Tableau) × IsAfter limit left t u }
    ensures next { (t : Tableau) →
        ((end : PrimalEnd) × (choice_run None t ≡ Ok (End end))) ⊎ ((u : Tableau) × IsNext None t u) }
{}

/// Both phases go by steps. Where they end with no feasible point, steps of phase one lead from the start of the form to
/// the tableau that they end with; else steps of phase two do, from the tableau that it begins with. Where the budget is
/// spent, a phase made as many steps as were left to it.
pub fn phases_go_by_steps()
    ensures infeasible { (limit : Option ℕ) (budget : ℕ) (f : Form) (u : Tableau) (used : ℕ) →
        phases_run limit budget f ≡ Ok (Infeasible u used) →
        (t : Tableau) × (start_of limit f ≡ Ok t) × IsAfter limit used t u }
    ensures finished { (limit : Option ℕ) (budget : ℕ) (f : Form) (e : PrimalEnded) →
        phases_run limit budget f ≡ Ok (Finished e) →
        (t : Tableau) × (two : BeginsPhaseTwo limit budget f t) × (k : ℕ) × (e.used ≡ two.one.used + k)
        × IsAfter limit k t e.tableau }
    ensures spent { (limit : Option ℕ) (budget : ℕ) (f : Form) → phases_run limit budget f ≡ Err stop.Spent →
        ((t u : Tableau) × (start_of limit f ≡ Ok t) × IsAfter limit budget t u)
        ⊎ ((t u : Tableau) × (two : BeginsPhaseTwo limit budget f t) × IsAfter limit (budget - two.one.used) t u) }
{}

/// No statuses come back within a phase: two tableaus at different steps of it have different ones (Bland, New finite
/// pivoting rules for the simplex method). The statuses say of each column whether it is basic, and where it stands if
/// it is not. Phase one goes on from the start of a model's form, phase two from the tableau that it begins with.
pub fn no_statuses_come_back()
    ensures one { (limit : Option ℕ) (m : Model) (f : Form) (t u v : Tableau) (i k : ℕ) →
        form_of limit m ≡ Ok f → start_of limit f ≡ Ok t →
        IsAfter limit i t u → IsAfter limit k t v → i < k → u.status ≢ v.status }
    ensures two { (limit : Option ℕ) (budget : ℕ) (m : Model) (f : Form) (t u v : Tableau) (i k : ℕ) →
        form_of limit m ≡ Ok f → BeginsPhaseTwo limit budget f t →
        IsAfter limit i t u → IsAfter limit k t v → i < k → u.status ≢ v.status }
{}

/// There is a model whose form takes a step in both phases, so that the laws above do not hold of nothing.
pub fn some_steps_are_taken()
    ensures { (budget : ℕ) × (m : Model) × (f : Form) × (form_of None m ≡ Ok f) ×
        ((t u : Tableau) × (start_of None f ≡ Ok t) × IsNext None t u) ×
        ((t u : Tableau) × BeginsPhaseTwo None budget f t × IsNext None t u) }
{}

/// Each phase has fewer steps than there are ways to give each of its columns one of three statuses (Bland, New finite
/// pivoting rules for the simplex method). So twice as many are enough for both.
pub fn a_stated_budget_is_enough()
    ensures { (limit : Option ℕ) (budget : ℕ) (m : Model) →
        2 * 3 ^ (width m + 2 * height m) ≤ budget → ¬ (cold limit budget m ≡ outcome.Spent) }
{}

/// At a limit a cold solve is the one without a limit, or an operation is refused. Without a limit none is.
pub fn cold_limits_only_refuse()
    ensures same { (limit : Option ℕ) (budget : ℕ) (m : Model) →
        (cold limit budget m ≡ cold None budget m) ⊎ ((p : Past ℚ) × (cold limit budget m ≡ outcome.Past p)) }
    ensures exact { (budget : ℕ) (m : Model) (p : Past ℚ) → ¬ (cold None budget m ≡ outcome.Past p) }
{}

/// Each model is decided: it has an optimal value, or no feasible point, or points that get better without limit. The
/// cold solve without a limit says which, within a budget of twice 3 to the power of columns plus twice the rows.
pub fn every_model_is_decided()
    ensures { (budget : ℕ) (m : Model) → 2 * 3 ^ (width m + 2 * height m) ≤ budget → IsAnswered budget m }
{}
