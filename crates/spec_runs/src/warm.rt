//! The warm start of a model from a basis: its definition, and the law that its end is true.
//!
//! | Item | What it is | Where |
//! |---|---|---|
//! | `Warm` | how a warm start ends | src/ends |
//! | `warm_run`, `warm_certificate`, `warm` | the run from a basis; its certificate; the whole, with the check | specs/Warm |
//! | `Route`, `Fall` | from where a solve found its end, and why it gave a warm start up | src/ends |
//! | `SolveEnd`, `solve` | how a solve ends, and the solve of a model, of which a basis may be handed | specs/Solve |
//! | `IsBased`, `IsReady`, `BeginsFrom` | what holds of the tableau of a basis, before and after the flips | specs/Based |
//! | `IsDependent` | a basic column depends on those before it | specs/Based |
//! | `IsStuck`, `IsDualStep`, `IsDualMeant` | what a choice of the dual method means for a tableau | specs/Based |
//!
//! All runs take a limit: `Some m` refuses numbers past m, `None` refuses nothing. The functions here have the laws as
//! their contracts. Each law holds at every limit: a run at a limit that gives a result gives the exact one.
//!
//! The elimination, the fit and the steps are those of `spec_simplex`, the dual steps on functions of an index those of
//! `spec_pivot`, and the certificates and their checker those of `spec_check`.

ghost use Rattle.std.specs.Prelude.{◌≡◌, ◌≢◌, ◌⊎◌, ◌+◌, ◌≤◌, ℕ, List, length, Option, Some, None, Ok, Err};
ghost use Rattle.spec_exact.specs.Fraction.{ℚ};
ghost use Rattle.spec_exact.specs.declared.past.Past.{Past};
ghost use Rattle.spec_model.specs.Model.{Model};
ghost use Rattle.spec_check.specs.declared.certificate.Certificate.{Certificate};
ghost use Rattle.spec_check.specs.declared.certificate.Known.{Known};
ghost use Rattle.spec_check.specs.Certificate.{Holds};
ghost use Rattle.spec_check.specs.Run.{check_run};
ghost use Rattle.spec_pivot.specs.declared.status.Status.{Status};
ghost use Rattle.spec_pivot.specs.declared.status.Way.{Way};
ghost use Rattle.spec_pivot.specs.Tableau.{Matrix};
ghost use Rattle.spec_pivot.specs.Simplex.{Bounds};
ghost use Rattle.spec_simplex.specs.Form.{Form, form_of};
ghost use Rattle.spec_simplex.specs.Tableau.{Tableau};
ghost use Rattle.spec_simplex.specs.Phases.{PhasesEnd, phases_run};
ghost use Rattle.spec_runs.specs.Accepted.{IsAccepted};
ghost use Rattle.spec_runs.specs.Cold.{basis_of};
ghost use Rattle.spec_simplex.specs.Begins.{IsProper};
ghost use Rattle.spec_simplex.specs.Tables.{table_of, IsTableauOf, IsWithinBounds};
ghost use Rattle.spec_pivot.specs.Dual.{IsOrdered, after_dual, bound_behind};
ghost use Rattle.spec_simplex.specs.declared.ends.DualChoice.{DualChoice};
ghost use Rattle.spec_simplex.specs.declared.ends.Fit.TheVariants as fit;
ghost use Rattle.spec_simplex.specs.declared.ends.StartStop.TheVariants as start;
ghost use Rattle.spec_runs.specs.declared.ends.Warm.TheVariants as outcome;
ghost use Rattle.spec_simplex.specs.declared.ends.WarmStop.{WarmStop};
ghost use Rattle.spec_simplex.specs.declared.ends.WarmStop.TheVariants as fall;
ghost use Rattle.spec_simplex.specs.Eliminate.{IsBasisOf, start_from};
ghost use Rattle.spec_simplex.specs.Fit.{fit_run};
ghost use Rattle.spec_simplex.specs.Dual.{Reached, flips_run, dual_choice_run, dual_pivot_run};
ghost use Rattle.spec_runs.specs.Based.{IsBased, IsReady, BeginsFrom, IsDependent, IsDualStep, IsDualMeant};
ghost use Rattle.spec_runs.specs.Warm.{WarmEnd, warm_run, warm_certificate, warm_basis, warm, IsBasisFor};

/// The tableau that is made of a basis of a proper form, which has no more costs than columns, is one of the form's
/// equations, costs and bounds, with artificials fixed at 0.
pub fn bases_begin_tableaus()
    ensures { (limit : Option ℕ) (f : Form) (basis : List Status) (t : Tableau) →
        IsProper f → IsBasisOf f basis → length f.cost ≤ f.cols + f.rows + f.rows →
        start_from limit f basis ≡ Ok t → BeginsFrom f t }
{}

/// A basis is singular only where one of its basic columns depends on those before it.
pub fn singular_bases_depend()
    ensures { (limit : Option ℕ) (f : Form) (basis : List Status) → start_from limit f basis ≡ Err start.Singular →
        (j : ℕ) × (x : ℕ → ℚ) × IsDependent f basis j x }
{}

/// What the fit of a basis's tableau says holds, so the method that it names may go on. Where it is primal, and no
/// lower bound is above its upper one, each value is within its bounds. Where it is dual, the reduced costs of columns
/// that are not fixed have, after its flips, the signs that their statuses want.
pub fn fits_mean_methods()
    ensures primal { (limit : Option ℕ) (m n : ℕ) (f : Matrix) (cost : ℕ → ℚ) (b : Bounds) (t : Tableau) →
        IsBased m n f cost b t → IsOrdered (n + m + m) b →
        fit_run limit t ≡ Ok fit.Primal → IsTableauOf m n f cost b t × IsWithinBounds m n b t }
    ensures dual { (limit : Option ℕ) (m n : ℕ) (f : Matrix) (cost : ℕ → ℚ)
        (b : Bounds) (t : Tableau) (budget : ℕ) (r : Reached) →
        IsBased m n f cost b t → fit_run limit t ≡ Ok fit.Dual →
        flips_run limit budget t ≡ Ok r → IsReady m n f cost b r.tableau }
{}

/// At a dual feasible tableau of a basis, a choice of the dual run means what the dual ratio test says. Where no
/// operation is refused, its pivot is a dual step, and the tableau after it is dual feasible again.
pub fn dual_choices_mean_steps()
    ensures choice { (limit : Option ℕ) (m n : ℕ) (f : Matrix)
        (cost : ℕ → ℚ) (b : Bounds) (t : Tableau) (choice : DualChoice) →
        IsReady m n f cost b t → dual_choice_run limit t ≡ Ok choice → IsDualMeant m n b t choice }
    ensures table { (limit : Option ℕ) (m n : ℕ) (f : Matrix) (cost : ℕ → ℚ)
        (b : Bounds) (t u : Tableau) (p j : ℕ) (way : Way) →
        IsReady m n f cost b t → (d : IsDualStep m n b t p j way) →
        dual_pivot_run limit t p j (bound_behind way) ≡ Ok u →
        table_of u ≡ after_dual m (table_of t) way p j d.bound }
    ensures ready { (limit : Option ℕ) (m n : ℕ) (f : Matrix) (cost : ℕ → ℚ)
        (b : Bounds) (t u : Tableau) (p j : ℕ) (way : Way) →
        IsReady m n f cost b t → IsDualStep m n b t p j way → dual_pivot_run limit t p j (bound_behind way) ≡ Ok u →
        IsReady m n f cost b u }
{}

/// The certificate of what a run from a basis of the form ends with is accepted without a limit, and at a limit unless
/// an operation is refused.
pub fn warm_ends_are_accepted()
    ensures { (limit : Option ℕ) (budget : ℕ) (m : Model) (f : Form) (basis : List Status) (e : WarmEnd) →
        form_of limit m ≡ Ok f → IsBasisOf f basis → warm_run limit budget f basis ≡ Ok e →
        IsAccepted limit m (warm_certificate e) }
{}

/// The basis of an optimal end is a basis of the form again, that of a warm start and that of the cold solve.
pub fn ends_leave_bases()
    ensures warm { (limit : Option ℕ) (budget : ℕ) (m : Model) (f : Form)
        (basis : List Status) (e : WarmEnd) (left : List Status) →
        form_of limit m ≡ Ok f → IsBasisOf f basis → warm_run limit budget f basis ≡ Ok e → warm_basis e ≡ Some left →
        IsBasisOf f left }
    ensures cold { (limit : Option ℕ) (budget : ℕ) (m : Model) (f : Form) (e : PhasesEnd) (left : List Status) →
        form_of limit m ≡ Ok f → phases_run limit budget f ≡ Ok e → basis_of e ≡ Some left → IsBasisOf f left }
{}

/// Where a warm start from a basis of the model's form ends with an answer, this is true, and the checker accepts the
/// certificate. Where it stops for another reason than a refused operation, the run from the basis stopped for that
/// reason.
pub fn warm_ends_true()
    ensures ended { (limit : Option ℕ) (budget : ℕ) (m : Model) (basis : List Status)
        (answer : Known ℚ) (cert : Certificate (List ℚ)) (left : Option (List Status)) (pivots : ℕ) →
        IsBasisFor limit m basis → warm limit budget m basis ≡ outcome.Ended answer cert left pivots →
        Holds m answer × (check_run limit m cert ≡ Ok answer) }
    ensures stopped { (limit : Option ℕ) (budget : ℕ) (m : Model) (basis : List Status) (s : WarmStop ℚ) →
        IsBasisFor limit m basis → ((p : Past ℚ) → s ≢ fall.Past p) → warm limit budget m basis ≡ outcome.Stopped s →
        (f : Form) × (form_of limit m ≡ Ok f) × (warm_run limit budget f basis ≡ Err s) }
{}

/// From a basis of the model's form a warm start at a limit is the one without a limit, or an operation is refused.
/// Without a limit none is.
pub fn warm_limits_only_refuse()
    ensures same { (limit : Option ℕ) (budget : ℕ) (m : Model) (basis : List Status) → IsBasisFor limit m basis →
        (warm limit budget m basis ≡ warm None budget m basis)
        ⊎ ((p : Past ℚ) × (warm limit budget m basis ≡ outcome.Stopped (fall.Past p))) }
    ensures exact { (budget : ℕ) (m : Model) (basis : List Status) (p : Past ℚ) → IsBasisFor None m basis →
        ¬ (warm None budget m basis ≡ outcome.Stopped (fall.Past p)) }
{}
