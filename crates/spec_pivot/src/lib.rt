//! Steps of the simplex method with bounds on the variables, over functions of an index: definitions, and the laws that
//! they meet. There are no lists here, no model, and no limit on numbers.
//!
//! A reader has to believe the definitions in `specs/`; each law is the contract of a function below,
//! which does nothing.
//!
//! | Item | What it is | Where |
//! |---|---|---|
//! | `Status`, `Way` | where a column stands; which way the entering column moves | src/status |
//! | `Matrix`, `pivoted`, `entered` | rows of fractions; the rows and the basic columns after a pivot | specs/Tableau |
//! | `Spans`, `IsUnit` | each row is a combination of other rows; the basic columns are those of the unit matrix | specs/Tableau |
//! | `Bounds`, `IsFixed`, `MayEnter`, `IsWithin` | bounds of columns; which columns may enter; all values are within their bounds | specs/Simplex |
//! | `Table`, `IsTableau` | a tableau read by indexes; that it is one of these rows, costs and bounds | specs/Simplex |
//! | `IsEligible`, `Enters` | a column that would lower the cost; the least of these | specs/Simplex |
//! | `ray`, `moved` | how every column moves with the entering one; the values after a move | specs/Simplex |
//! | `Pivots`, `Flips`, `Label` | the two kinds of a step by the rule of the least index; what a step does | specs/Simplex |
//! | `IsStep`, `IsRun` | a step from one tableau to the next; many, one after the other | specs/Simplex |
//! | `room`, `best_of` | how far a bound lets a column go; the ratio test | specs/Ratio |
//! | `HasRoom`, `GoesOn` | there is room for a move; nothing ever stops it | specs/Ratio |
//! | `bound_ahead`, `way_of` | the bound at which a column ends; the way of a column that moves along | specs/Ratio |
//! | `IsDualFeasible`, `Leaves`, `IsCheapest`, `after_dual`, `Refutes` | the dual method on the same tableaus, with laws of its own | src/dual, specs/Dual |
//!
//! A tableau has m positions, each with a basic column and a row, and n columns; a row means that the sum of its
//! entries times the columns' values is 0. The cost is to be least. The method with bounds is that of Chvátal, Linear
//! Programming (1983), chapter 8, and tableaus are those of its chapter 2. The rule of the least index, and that it
//! ends, are by Bland, New finite pivoting rules for the simplex method (1977).
#![tactic(auto)]

mod dual;
mod status;

ghost use Rattle.std.specs.Prelude.{◌≡◌, ◌<◌, ◌^◌, ℕ, Some, None};
ghost use Rattle.spec_exact.specs.Fraction.{ℚ, 0ℚ};
ghost use Rattle.spec_pivot.specs.declared.status.Status.{Status};
ghost use Rattle.spec_pivot.specs.declared.status.Way.{Way};
ghost use Rattle.spec_pivot.specs.Tableau.{Matrix, Spans, IsUnit, pivoted, entered};
ghost use Rattle.spec_pivot.specs.Simplex.{Bounds, Table, IsTableau, IsWithin, Enters, ray, after_pivot, after_flip};
ghost use Rattle.spec_pivot.specs.Simplex.{Pivots, Flips, Pivot, Label, IsStep, IsRun, SameStatuses, SameTableau};
ghost use Rattle.spec_pivot.specs.Ratio.{Best, GoesOn, HasRoom, NoWorse, best_of, room_at, way_of, bound_ahead};

pub use dual::{
    dual_ends_are_optimal, dual_ratio_test, dual_steps_keep_tableaus, some_dual_step_exists,
    stuck_rows_refute,
};
pub use status::{Status, Way};

/// A pivot on an entry that is not 0 keeps the span of the rows. It makes the entering column a unit column, and leaves
/// the basic columns that stay unit columns (Chvátal, Linear Programming, chapters 2 and 8).
pub fn pivots_keep_rows()
    ensures forth { (m : ℕ) (t : Matrix) (p j : ℕ) →
        p < m → ¬ (t p j ≡ 0ℚ) → Spans m (pivoted t p j) t }
    ensures back { (m : ℕ) (t : Matrix) (p j : ℕ) →
        p < m → ¬ (t p j ≡ 0ℚ) → Spans m t (pivoted t p j) }
    ensures units { (m : ℕ) (t : Matrix) (basic : ℕ → ℕ) (p j : ℕ) →
        p < m → ¬ (t p j ≡ 0ℚ) → IsUnit m t basic → IsUnit m (pivoted t p j) (entered basic p j) }
{}

/// Two tableaus of the same rows, costs and bounds with the same statuses have the same values, reduced costs, and rows
/// by their basic columns (Chvátal, Linear Programming, chapters 2 and 8).
pub fn one_basis_one_tableau()
    ensures { (m n : ℕ) (f : Matrix) (cost : ℕ → ℚ) (b : Bounds) (t u : Table) →
        IsTableau m n f cost b t → IsTableau m n f cost b u → SameStatuses n t u → SameTableau m n t u }
{}

/// A step leaves a tableau of the same rows, costs and bounds (Chvátal, Linear Programming, chapter 8).
pub fn steps_keep_tableaus()
    ensures { (m n : ℕ) (f : Matrix) (cost : ℕ → ℚ) (b : Bounds)
        (l : Label) (t u : Table) →
        IsTableau m n f cost b t → IsStep m n b l t u → IsTableau m n f cost b u }
{}

/// Where every value is within its bounds, each still is after a pivot or a flip by a move for which there is room
/// (Chvátal, Linear Programming, chapter 8).
pub fn steps_stay_within()
    ensures pivot { (m n : ℕ) (f : Matrix) (cost : ℕ → ℚ) (b : Bounds) (t : Table)
        (way : Way) (j p : ℕ) (theta : ℚ) (to : Status) →
        IsTableau m n f cost b t → IsWithin n b t → Enters n b t way j → HasRoom m b t way j theta →
        IsWithin n b (after_pivot m t way j p theta to) }
    ensures flip { (m n : ℕ) (f : Matrix) (cost : ℕ → ℚ) (b : Bounds) (t : Table)
        (way : Way) (j : ℕ) (theta : ℚ) (to : Status) →
        IsTableau m n f cost b t → IsWithin n b t → Enters n b t way j → HasRoom m b t way j theta →
        IsWithin n b (after_flip m t way j theta to) }
{}

/// In a tableau with every value within its bounds: where the ratio test finds nothing, nothing stops the entering
/// column. Where it finds a best, there is room for a move by that, and no position's room beats it (Chvátal, Linear
/// Programming, chapter 8).
pub fn ratio_test()
    ensures none { (m n : ℕ) (f : Matrix) (cost : ℕ → ℚ) (b : Bounds) (t : Table)
        (way : Way) (j : ℕ) →
        IsTableau m n f cost b t → IsWithin n b t → Enters n b t way j →
        best_of m b t way j ≡ None → GoesOn m n b t way j }
    ensures room { (m n : ℕ) (f : Matrix) (cost : ℕ → ℚ) (b : Bounds) (t : Table)
        (way : Way) (j : ℕ) (x : Best) →
        IsTableau m n f cost b t → IsWithin n b t → Enters n b t way j →
        best_of m b t way j ≡ Some x → HasRoom m b t way j x.ratio }
    ensures least { (m : ℕ) (b : Bounds) (t : Table) (way : Way) (j : ℕ) (x : Best) →
        best_of m b t way j ≡ Some x →
        (i : ℕ) → i < m → (q : ℚ) → room_at m b t way j i ≡ Some q → NoWorse x q (t.basic i) }
{}

/// In a tableau with every value within its bounds, the best of the ratio test is a step by the rule. It is a pivot at
/// its position, or a flip where it has none (Chvátal, Linear Programming, chapter 8).
pub fn best_is_a_step()
    ensures pivot { (m n : ℕ) (f : Matrix) (cost : ℕ → ℚ) (b : Bounds) (t : Table)
        (way : Way) (j : ℕ) (x : Best) (p : ℕ) →
        IsTableau m n f cost b t → IsWithin n b t → Enters n b t way j →
        best_of m b t way j ≡ Some x → x.position ≡ Some p →
        Pivots m n b t way j p x.ratio (bound_ahead (way_of (ray m t way j (t.basic p)))) }
    ensures flip { (m n : ℕ) (f : Matrix) (cost : ℕ → ℚ) (b : Bounds) (t : Table)
        (way : Way) (j : ℕ) (x : Best) →
        IsTableau m n f cost b t → IsWithin n b t → Enters n b t way j →
        best_of m b t way j ≡ Some x → x.position ≡ None →
        Flips m n b t way j x.ratio (bound_ahead way) }
{}

/// Steps by the least index never come back to the same statuses
/// (Bland, New finite pivoting rules for the simplex method).
pub fn no_repetition()
    ensures { (m n : ℕ) (f : Matrix) (cost : ℕ → ℚ) (b : Bounds)
        (t : ℕ → Table) (l : ℕ → Label) (len : ℕ) →
        IsRun m n f cost b t l len → 0 < len → ¬ (SameStatuses n (t 0) (t len)) }
{}

/// There are fewer steps than ways to give each of n columns one of three statuses (Bland, New finite pivoting rules
/// for the simplex method). A column that is not basic is at one of its bounds, or at 0 where it has none.
pub fn few_steps()
    ensures { (m n : ℕ) (f : Matrix) (cost : ℕ → ℚ) (b : Bounds)
        (t : ℕ → Table) (l : ℕ → Label) (len : ℕ) →
        IsRun m n f cost b t l len → len < 3 ^ n }
{}

/// There is a run with a pivot, so that the laws of runs do not hold of nothing.
pub fn some_run_exists()
    ensures { (m n : ℕ) × (f : Matrix) × (cost : ℕ → ℚ) × (b : Bounds) ×
        (t : ℕ → Table) × (l : ℕ → Label) × IsRun m n f cost b t l 1 × ((l 0).kind ≡ Pivot) }
{}
