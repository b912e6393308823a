//! Steps of the dual simplex method with bounds on the variables, over functions of an index: definitions, and the laws
//! that they meet. There are no lists here, no model, and no limit on numbers.
//!
//! | Item | What it is | Where |
//! |---|---|---|
//! | `Suits`, `IsDualFeasible` | the sign that a reduced cost has; each has it in columns not fixed | specs/Dual |
//! | `IsPast`, `Leaves` | a value is past a bound; the basic column that leaves to it | specs/Dual |
//! | `Helps`, `IsCandidate`, `ratio`, `IsCheapest` | which columns may enter; the ratio test | specs/Dual |
//! | `shift`, `after_dual` | how far the entering column moves; the tableau after the step | specs/Dual |
//! | `IsSolution`, `Refutes` | values that solve the rows within the bounds; a row that shows that there are none | specs/Dual |
//! | `IsComplementary` | complementary slackness of a column | specs/Dual |
//!
//! The dual method begins with a tableau whose reduced costs have their signs and some of whose values are outside
//! their bounds, and keeps the former until none of the latter is left. With bounds on the variables it is that of
//! Chvátal, Linear Programming (1983), chapters 8 and 10.

ghost use Rattle.std.specs.Prelude.{◌≡◌, ◌≢◌, ◌<◌, ℕ};
ghost use Rattle.spec_exact.specs.Fraction.{ℚ, ◌*ℚ◌, ◌≤ℚ◌};
ghost use Rattle.spec_exact.specs.Sums.{sum_below};
ghost use Rattle.spec_pivot.specs.declared.status.Status.{Status};
ghost use Rattle.spec_pivot.specs.declared.status.Status.TheVariants.{Basic};
ghost use Rattle.spec_pivot.specs.declared.status.Way.{Way};
ghost use Rattle.spec_pivot.specs.Tableau.{Matrix};
ghost use Rattle.spec_pivot.specs.Simplex.{Bounds, Table, IsFixed, IsInside, IsTableau};
ghost use Rattle.spec_pivot.specs.Simplex.{IsWithin, IsEligible, Crosses, moved, after_flip};
ghost use Rattle.spec_pivot.specs.Dual.{Suits, IsDualFeasible, IsOrdered, Leaves, row_of, IsCandidate};
ghost use Rattle.spec_pivot.specs.Dual.{IsCheapest, shift, after_dual, IsSolution, Refutes, IsComplementary};

/// A dual step leaves a tableau of the same rows, costs and bounds, in which the column that leaves is at the bound
/// that it had passed. A flip leaves a tableau of these too (Chvátal, Linear Programming, chapters 8 and 10).
pub fn dual_steps_keep_tableaus()
    ensures pivot { (m n : ℕ) (f : Matrix) (cost : ℕ → ℚ) (b : Bounds) (t : Table)
        (way : Way) (p j : ℕ) (c : ℚ) →
        IsTableau m n f cost b t → Leaves m b t way p c → j < n → IsCandidate b t way p j →
        IsTableau m n f cost b (after_dual m t way p j c) }
    ensures lands { (m n : ℕ) (f : Matrix) (cost : ℕ → ℚ) (b : Bounds) (t : Table)
        (way : Way) (p j : ℕ) (c : ℚ) →
        IsTableau m n f cost b t → Leaves m b t way p c → j < n → IsCandidate b t way p j →
        (after_dual m t way p j c).value (t.basic p) ≡ c }
    ensures flip { (m n : ℕ) (f : Matrix) (cost : ℕ → ℚ) (b : Bounds) (t : Table)
        (way : Way) (j : ℕ) (theta : ℚ) (to : Status) →
        IsTableau m n f cost b t → Crosses m n b t way j theta to →
        IsTableau m n f cost b (after_flip m t way j theta to) }
{}

/// Of columns that are not fixed: where the candidate with the least ratio enters, each reduced cost keeps the sign
/// that belongs to its status. After a flip of a column all have their signs, if those of the other columns had and its
/// own suits the column's new status (Chvátal, Linear Programming, chapter 10).
pub fn dual_ratio_test()
    ensures pivot { (m n : ℕ) (f : Matrix) (cost : ℕ → ℚ) (b : Bounds) (t : Table)
        (way : Way) (p j : ℕ) (c : ℚ) →
        IsTableau m n f cost b t → IsDualFeasible n b t → Leaves m b t way p c → IsCheapest n b t way p j →
        IsDualFeasible n b (after_dual m t way p j c) }
    ensures flip { (m n : ℕ) (b : Bounds) (t : Table) (way : Way) (j : ℕ) (theta : ℚ) (to : Status) →
        Suits to (t.reduced j) →
        ((k : ℕ) → k < n → k ≢ j → ¬ (IsFixed b k) → Suits (t.status k) (t.reduced k)) →
        IsDualFeasible n b (after_flip m t way j theta to) }
{}

/// Where a combination of the rows is above 0 at all values within the bounds, no values solve the rows within the
/// bounds (Farkas' lemma). Where a column has to leave and no column may enter, the leaving column's row or its
/// negative is such a combination, with the bounds at which it stops.
pub fn stuck_rows_refute()
    ensures row { (m n : ℕ) (f : Matrix) (cost : ℕ → ℚ) (b : Bounds) (t : Table)
        (way : Way) (p : ℕ) (c : ℚ) →
        IsTableau m n f cost b t → Leaves m b t way p c → ((k : ℕ) → k < n → ¬ (IsCandidate b t way p k)) →
        (w : ℕ → ℚ) × Refutes m n f b (row_of t way p) w }
    ensures none { (m n : ℕ) (f : Matrix) (b : Bounds) (a w : ℕ → ℚ) → Refutes m n f b a w →
        (x : ℕ → ℚ) → ¬ (IsSolution m n f b x) }
{}

/// Where a tableau's reduced costs have their signs in columns that are not fixed, no column may enter by the primal
/// method. Values and reduced costs are complementary, and no solution costs less than the values (Chvátal, Linear
/// Programming, chapters 5 and 8). Where no bounds clash and each basic value is within its bounds, each value is.
pub fn dual_ends_are_optimal()
    ensures within { (m n : ℕ) (f : Matrix) (cost : ℕ → ℚ) (b : Bounds) (t : Table) →
        IsTableau m n f cost b t → IsOrdered n b →
        ((k : ℕ) → k < n → t.status k ≡ Basic → IsInside (b.lower k) (b.upper k) (t.value k)) → IsWithin n b t }
    ensures eligible { (n : ℕ) (b : Bounds) (t : Table) → IsDualFeasible n b t →
        (way : Way) (k : ℕ) → k < n → ¬ (IsEligible b t way k) }
    ensures complementary { (m n : ℕ) (f : Matrix) (cost : ℕ → ℚ) (b : Bounds) (t : Table) →
        IsTableau m n f cost b t → IsDualFeasible n b t → (k : ℕ) → k < n → IsComplementary b t k }
    ensures least { (m n : ℕ) (f : Matrix) (cost : ℕ → ℚ) (b : Bounds) (t : Table) →
        IsTableau m n f cost b t → IsDualFeasible n b t → (x : ℕ → ℚ) → IsSolution m n f b x →
        sum_below n (λ k. cost k *ℚ t.value k) ≤ℚ sum_below n (λ k. cost k *ℚ x k) }
{}

/// There is a dual step by the ratio test, and a row that refutes, so that the laws do not hold of nothing.
pub fn some_dual_step_exists()
    ensures step { (m n : ℕ) × (f : Matrix) × (cost : ℕ → ℚ)
        × (b : Bounds) × (t : Table) × (way : Way) × (p j : ℕ) × (c : ℚ) ×
        IsTableau m n f cost b t × IsDualFeasible n b t × Leaves m b t way p c × IsCheapest n b t way p j }
    ensures row { (m n : ℕ) × (f : Matrix) × (b : Bounds) × (a w : ℕ → ℚ) × Refutes m n f b a w }
{}
