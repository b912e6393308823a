//! A model made smaller before it is solved, and the certificate of the smaller one carried back.
//!
//! | Item | What it is | Where |
//! |---|---|---|
//! | `Reduction`, `Halt`, `Choice`, `InRow` | one step to a smaller model, and why none follows | src/reduction |
//! | `chosen` | which row or column goes next, by which rule | specs/Choose |
//! | `after`, `reduced` | the model after one reduction, and the models after each of all | specs/Reduce |
//! | `halted` | the certificate of an end that shows that no point is feasible | specs/Carry |
//! | `carried_over`, `carried` | a certificate carried back over one reduction, and over all | specs/Carry |
//! | `without_free_rows`, `without_free_multipliers` | a model without its free rows, and a certificate without theirs | specs/FreeRows |
//! | `IsCarried`, `IsShown` | that a certificate is accepted for a model, and shows the same, or that no point is feasible | specs/Carry |
//! | `Presolved`, `Way`, `Why` | how a solve by the smaller model ends, and which model was solved | src/presolved |
//! | `IsPresolved` | what it may end with, at the limit of the program and within a budget | specs/Presolved |
//!
//! Each other definition has a limit, at which an operation may be refused. The laws on certificates hold at each limit.
//!
//! The functions here have the laws as their contracts.
#![tactic(auto)]

mod presolved;
mod reduction;

ghost use Rattle.std.specs.Prelude.{All, ◌≡◌, ◌+◌, ℕ, List, Option, Some, Ok, length, ◌<◌, ◌↔◌, true, not};
ghost use Rattle.std.specs.List.{filter};
ghost use Rattle.spec_exact.specs.Fraction.{ℚ, 0ℚ};
ghost use Rattle.spec_model.specs.Model.{Model, width, height, row, part, is_free};
ghost use Rattle.spec_exact.specs.Narrow.{number_limit};
ghost use Rattle.spec_model.specs.Kept.{IsUsualModel};
ghost use Rattle.spec_model.specs.Truth.{IsOptimal, IsInfeasible, IsUnbounded};
ghost use Rattle.spec_check.specs.declared.certificate.Certificate.{Certificate};
ghost use Rattle.spec_check.specs.declared.certificate.Known.{Known};
ghost use Rattle.spec_check.specs.declared.solve_end.SolveEnd.TheVariants.{Ended};
ghost use Rattle.spec_edit.specs.Changes.{without_row};
ghost use Rattle.spec_check.specs.declared.certificate.Certificate.TheVariants as certificate;
ghost use Rattle.spec_check.specs.Certificate.{IsFor, shown, Holds};
ghost use Rattle.spec_check.specs.Run.{Agrees, check_run};
ghost use Rattle.spec_check.specs.Checks.{Checks};
ghost use Rattle.spec_pivot.specs.declared.status.Status.{Status};
ghost use Rattle.spec_presolve.specs.declared.reduction.Choice.TheVariants as choice;
ghost use Rattle.spec_presolve.specs.Choose.{chosen};
ghost use Rattle.spec_presolve.specs.Reduce.{Reductions, reduced};
ghost use Rattle.spec_presolve.specs.Carry.{ExactCertificate, carried, halted, IsCarried, IsShown, over_empty};
ghost use Rattle.spec_presolve.specs.FreeRows.{without_free_rows, without_free_multipliers, TakesNoFreeRow};
ghost use Rattle.spec_presolve.specs.Presolved.{ExactPresolved, IsPresolved};

pub use presolved::{Presolved, Way, Why};
pub use reduction::{Choice, Halt, InRow, Reduction};

/// A certificate that is accepted for the last model is, carried back at any limit that refuses none of this, accepted
/// for the first one. It shows the same of it, which is true. The checker's run at a limit says so, or is refused an
/// operation; it never says no.
pub fn certificates_are_carried_back()
    ensures conditions { (limit : Option ℕ) (m : Model) (r : Reductions) (c back : ExactCertificate) →
        reduced limit m ≡ Ok r → carried limit r.steps c ≡ Ok back → IsFor r.last c → Checks r.last c →
        IsCarried m r.last c back }
    ensures truth { (limit : Option ℕ) (m : Model) (r : Reductions) (c back : ExactCertificate) →
        reduced limit m ≡ Ok r → carried limit r.steps c ≡ Ok back → IsFor r.last c → Checks r.last c →
        Holds m (shown r.last c) }
    ensures accepted { (limit other : Option ℕ) (m : Model) (r : Reductions) (c back : ExactCertificate) →
        reduced limit m ≡ Ok r → carried limit r.steps c ≡ Ok back → IsFor r.last c → Checks r.last c →
        Agrees (check_run other m back) (Ok (shown r.last c)) }
{}

/// A certificate of a model without a free row is one of the model with the multiplier 0 for that row, and the other way
/// round; no certificate that is accepted has another multiplier there.
pub fn free_rows_take_no_multiplier()
    ensures zero { (m : Model) (i : ℕ) → i < height m → is_free (row m i).kind ≡ true → (c : ExactCertificate) →
        IsFor (without_row m i) c → Checks (without_row m i) c ↔ Checks m (over_empty i c) }
    ensures optimal { (m : Model) (i : ℕ) → i < height m → is_free (row m i).kind ≡ true → (x y : List ℚ) →
        Checks m (certificate.Optimal x y) → part y i ≡ 0ℚ }
    ensures infeasible { (m : Model) (i : ℕ) → i < height m → is_free (row m i).kind ≡ true → (y : List ℚ) →
        Checks m (certificate.Infeasible y) → part y i ≡ 0ℚ }
{}

/// All free rows of a model may go at once: the same is true of the model without them. A certificate of the one, less the
/// multipliers of free rows, which are 0, is one of the other, and shows the same; and each certificate of the model without
/// them comes from one of the model.
pub fn free_rows_may_all_go()
    ensures rows { (m : Model) → (without_free_rows m).rows ≡ filter (λ r. not (is_free r.kind)) m.rows }
    ensures optimal { (m : Model) (v : ℚ) → IsOptimal m v ↔ IsOptimal (without_free_rows m) v }
    ensures infeasible { (m : Model) → IsInfeasible m ↔ IsInfeasible (without_free_rows m) }
    ensures unbounded { (m : Model) → IsUnbounded m ↔ IsUnbounded (without_free_rows m) }
    ensures less { (m : Model) (c : ExactCertificate) → IsFor m c →
        Checks m c ↔ (TakesNoFreeRow m c × Checks (without_free_rows m) (without_free_multipliers m c)) }
    ensures fits { (m : Model) (c : ExactCertificate) → IsFor m c →
        IsFor (without_free_rows m) (without_free_multipliers m c)
        × (shown (without_free_rows m) (without_free_multipliers m c) ≡ shown m c) }
    ensures more { (m : Model) (c : ExactCertificate) →
        IsFor (without_free_rows m) c → Checks (without_free_rows m) c →
        (whole : ExactCertificate) × IsFor m whole × Checks m whole × (without_free_multipliers m whole ≡ c) }
{}

/// Where reductions end because no point is feasible, the certificate of the end is accepted for the last model.
pub fn ends_are_certified()
    ensures { (limit : Option ℕ) (m : Model) (r : Reductions) (c : ExactCertificate) →
        reduced limit m ≡ Ok r → halted r.last r.halt ≡ Some c → IsShown r.last c }
{}

/// Where none is refused, reductions end where no other applies, and each of them takes a row or a column.
pub fn reductions_end()
    ensures none_applies { (limit : Option ℕ) (m : Model) (r : Reductions) →
        reduced limit m ≡ Ok r → chosen limit r.last ≡ Ok (choice.Halt r.halt) }
    ensures count { (limit : Option ℕ) (m : Model) (r : Reductions) → reduced limit m ≡ Ok r →
        length r.steps + (width r.last + height r.last) ≡ width m + height m }
{}

/// At the limit of 127 bits each reduction of a usual model that may be kept leads to one that may be kept.
pub fn reduced_models_may_be_kept()
    ensures { (m : Model) (r : Reductions) → IsUsualModel m → reduced (Some number_limit) m ≡ Ok r →
        All (λ s. IsUsualModel s.1) r.steps × IsUsualModel r.last }
{}

/// An answer that a presolved solve gives, by a smaller model or by the model as it is, is true of the model itself.
pub fn presolved_answers_are_true()
    ensures { (m : Model) (budget : ℕ) (p : ExactPresolved) (known : Known ℚ) (cert : Certificate (List ℚ))
        (basis : Option (List Status)) (pivots : ℕ) →
        IsPresolved m budget p → p.end ≡ Ended known cert basis pivots → Holds m known }
{}
