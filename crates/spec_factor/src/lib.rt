//! Factors of a basis in product form, and the cold run over them: definitions, and the laws that the factors meet.
//!
//! | Item | What it is | Where |
//! |---|---|---|
//! | `NoFactors` | why a basis has no factors | src/stop |
//! | `Pair`, `Factors` | an elementary matrix by its column; a list of them with the basic columns | specs/Factors |
//! | `ftran_run`, `btran_run` | both solves over pairs | specs/Factors |
//! | `factor_run`, `replace_run` | factors of a basis anew; another column in one place | specs/Factors |
//! | `forward`, `StandsFor` | their product; that it makes a basis's columns unit vectors | specs/Basis |
//! | `SolvesColumns`, `SolvesRows` | the one solution for a basis's columns, and for its rows | specs/Basis |
//! | `AreFactors`, `AreDependent` | factors of the basic columns of a form; that these are dependent | specs/Basis |
//! | `Revised` | a tableau with factors in place of its rows and reduced costs | specs/Revised |
//! | `Selection`, `selection_run` | what a step sees and chooses | specs/Revised |
//! | `flip_over_run`, `pivot_over_run` | the flip and the pivot of a step | specs/Revised |
//! | `over_run`, `over_factors` | the cold run over factors; the same with the check of its certificate | specs/Over |
//! | `GoesWith`, `SameChoice` | a state over factors goes with a tableau, and takes the same step; the laws of the run | src/revised, specs/Same |
//!
//! All runs take a limit: `Some m` refuses numbers past m, `None` refuses nothing. The functions here have the laws as
//! their contracts. Each law holds at every limit: a run at a limit that gives a result gives the exact one.
//!
//! The product form of the inverse is that of G. B. Dantzig and W. Orchard-Hays, The product form for the inverse in
//! the simplex method (1954); the revised method is that of Chvátal, Linear Programming (1983), chapter 7.
#![tactic(auto)]

mod revised;
mod stop;

ghost use Rattle.std.specs.Prelude.{◌≡◌, ◌≢◌, ◌⊎◌, ◌+◌, ◌<◌, ℕ, List, length, get_or, slice_set, Option, None, Ok, Err};
ghost use Rattle.spec_exact.specs.Fraction.{ℚ, 0ℚ};
ghost use Rattle.spec_exact.specs.declared.past.Past.{Past};
ghost use Rattle.spec_pivot.specs.declared.status.Status.{Status};
ghost use Rattle.spec_pivot.specs.Tableau.{Matrix};
ghost use Rattle.spec_simplex.specs.Form.{Form};
ghost use Rattle.spec_simplex.specs.Eliminate.{basics_below};
ghost use Rattle.spec_factor.specs.declared.stop.NoFactors.TheVariants as stop;
ghost use Rattle.spec_factor.specs.Factors.{Pair, Factors, ftran_run, btran_run, factor_run, replace_run};
ghost use Rattle.spec_factor.specs.Basis.{StandsFor, SolvesColumns, SolvesRows, with_column, AreFactors, AreDependent};

pub use revised::{
    factors_end_as_tableaus, factors_solve_as_without_a_limit, factors_step_as_tableaus,
    one_basis_one_step,
};
pub use stop::NoFactors;

/// Where pairs stand for a basis of m places and no operation is refused, ftran of a list v of m numbers gives the one
/// list z with basis * z = v. So btran of a list c of m numbers gives the one list y with y * basis = c.
pub fn solves_are_exact()
    ensures ftran { (limit : Option ℕ) (m : ℕ) (pairs : List Pair) (basis : Matrix) (v z : List ℚ) →
        StandsFor m pairs basis → length v ≡ m → ftran_run limit m pairs v ≡ Ok z → SolvesColumns m basis v z }
    ensures btran { (limit : Option ℕ) (m : ℕ) (pairs : List Pair) (basis : Matrix) (c y : List ℚ) →
        StandsFor m pairs basis → length c ≡ m → btran_run limit m pairs c ≡ Ok y → SolvesRows m basis c y }
{}

/// Factoring the basic columns of a basis, as many as there are rows, gives factors of them, or finds that they are
/// dependent, or is refused an operation. Of dependent columns there are no factors.
pub fn factors_stand_for_their_basis()
    ensures stands { (limit : Option ℕ) (f : Form) (basis : List Status) (s : Factors) →
        basics_below basis (f.cols + f.rows) ≡ f.rows → factor_run limit f basis ≡ Ok s → AreFactors f basis s }
    ensures singular { (limit : Option ℕ) (f : Form) (basis : List Status) →
        factor_run limit f basis ≡ Err stop.Singular → AreDependent f basis }
    ensures independent { (f : Form) (basis : List Status) (s : Factors) → AreFactors f basis s →
        ¬ (AreDependent f basis) }
{}

/// Where pairs stand for a basis, and column k is put into place p without a refusal, the new pairs stand for the basis
/// with that column there and its old ones elsewhere. The solution for the new column may not be 0 at place p. The list
/// of basic columns is the old one with k as its item p.
pub fn replacing_keeps_factors()
    ensures stands { (limit : Option ℕ) (m : ℕ) (basis : Matrix) (s u : Factors) (p k : ℕ) (column : List ℚ) →
        StandsFor m s.pairs basis → p < m → length column ≡ m →
        ((z : List ℚ) → SolvesColumns m basis column z → get_or z p 0ℚ ≢ 0ℚ) →
        replace_run limit m s p k column ≡ Ok u → StandsFor m u.pairs (with_column basis p column) }
    ensures basic { (limit : Option ℕ) (m : ℕ) (basis : Matrix) (s u : Factors) (p k : ℕ) (column : List ℚ) →
        replace_run limit m s p k column ≡ Ok u → u.basic ≡ slice_set s.basic p k }
{}

/// With a limit on the numbers, ftran, btran, the factoring of a basis and the replacement of a column each give what
/// they give without a limit, or are refused an operation. Without a limit ftran, btran and the factoring are never
/// refused.
pub fn factor_limits_only_refuse()
    ensures ftran { (limit : Option ℕ) (m : ℕ) (pairs : List Pair) (v : List ℚ) →
        (ftran_run limit m pairs v ≡ ftran_run None m pairs v) ⊎ ((p : Past ℚ) × (ftran_run limit m pairs v ≡ Err p)) }
    ensures btran { (limit : Option ℕ) (m : ℕ) (pairs : List Pair) (c : List ℚ) →
        (btran_run limit m pairs c ≡ btran_run None m pairs c) ⊎ ((p : Past ℚ) × (btran_run limit m pairs c ≡ Err p)) }
    ensures factor { (limit : Option ℕ) (f : Form) (basis : List Status) →
        (factor_run limit f basis ≡ factor_run None f basis) ⊎
        ((p : Past ℚ) × (factor_run limit f basis ≡ Err (stop.Past p))) }
    ensures replace { (limit : Option ℕ) (m : ℕ) (s : Factors) (p k : ℕ) (column : List ℚ) →
        (replace_run limit m s p k column ≡ replace_run None m s p k column) ⊎
        ((x : Past ℚ) × (replace_run limit m s p k column ≡ Err x)) }
    ensures exact_ftran { (m : ℕ) (pairs : List Pair) (v : List ℚ) (p : Past ℚ) → ¬ (ftran_run None m pairs v ≡ Err p) }
    ensures exact_btran { (m : ℕ) (pairs : List Pair) (c : List ℚ) (p : Past ℚ) → ¬ (btran_run None m pairs c ≡ Err p) }
    ensures exact_factor { (f : Form) (basis : List Status) (p : Past ℚ) →
        ¬ (factor_run None f basis ≡ Err (stop.Past p)) }
{}
