// Rows that are solved for columns, one after the other.
ghost use Rattle.std.specs.Prelude.{◌≡◌, ◌<◌, ◌+◌, ℕ, pos, IfSome, IsTrue, Some, List, length, slice_set, true};
ghost use Rattle.spec_exact.specs.Fraction.{0ℚ, eq_ℚ};
ghost use Rattle.spec_pivot.specs.declared.status.Status.{Status as statuses};
ghost use Rattle.spec_pivot.specs.declared.status.Status.TheVariants.{Basic};
ghost use Rattle.spec_simplex.specs.Form.{Form as forms};
ghost use Rattle.spec_simplex.specs.Eliminate as stated;
ghost use Rattle.lp_natural.specs.Whole.{whole};
ghost use Rattle.lp_rows.specs.Shows.{height, width};
ghost use Rattle.lp_rows.specs.Moves.{number_in};
ghost use Rattle.lp_row_runs.specs.Rows.{IsSolvedBelow, IsComplete, IfDone};

use crate::steps::spend;
use lp_form::{Status, is_basic};
use lp_natural::words::{Signed, Words};
use lp_rows::tableau::{RowTableau, Step, Turn, effort_of, turn_rows};

/// Equations as rows, and which positions have a basic column.
#[derive(Drop)]
pub(crate) struct Elimination<T: Words> {
    pub(crate) tab: RowTableau<T>,
    pub(crate) taken: Vec<bool>,
}

/// What comes of solving equations for columns.
#[derive(Clone, Copy)]
pub(crate) enum Progress {
    Done,
    /// A number is past the width.
    Narrow,
    /// The columns depend on each other, or the work is spent.
    Stopped,
}

// The number 0, for a turn of rows in which no value is to be moved.
fn none<T: Words>() -> Signed<T>
    ensures { whole result.negative (T.value result.size) ≡ pos 0 }
{
    Signed {
        negative: false,
        size: T::zero(),
    }
}

impl<T: Words> Elimination<T> {
    // Whether the entry of row `i` in column `j` is 0.
    fn has_none(&self, j: usize, i: usize) -> bool
        requires complete { IsComplete T.value self.now }
        requires column { j < width self.now.tab }
        requires place { i < height self.now.tab }
        ensures { result ≡ eq_ℚ (number_in T.value self.now.tab.rows.items i j) 0ℚ }
    {
        self.tab.rows[i].numbers[j].size.is_zero()
    }

    // Whether position `i` has no column yet, and its entry in column `j` is not 0.
    fn is_open(&self, j: usize, i: usize) -> bool
        requires complete { IsComplete T.value self.now }
        requires column { j < width self.now.tab }
        requires place { i < height self.now.tab }
        ensures { (f : forms) (basis : List statuses) (c : ℕ) → (s : IsSolvedBelow T.value f basis c self.now) →
            result ≡ stated.is_open s.now j i }
    {
        if self.taken[i] {
            return false;
        }
        !self.has_none(j, i)
    }

    // The least position that has no column yet and whose entry in column `j` is not 0; none if there is none.
    fn open(&self, j: usize) -> Option<usize>
        requires complete { IsComplete T.value self.now }
        requires column { j < width self.now.tab }
        ensures least { (f : forms) (basis : List statuses) (c : ℕ) → (s : IsSolvedBelow T.value f basis c self.now) →
            IfSome result (λ p. stated.open_below s.now j f.rows ≡ Some p) }
        ensures place { IfSome result (λ p. p < height self.now.tab) }
    {
        for i in 0..self.tab.rows.len() {
            if self.is_open(j, i) {
                return Some(i);
            }
        }
        None
    }

    // Notes that position `p` has the basic column `j`. The rows stay.
    fn mark(&mut self, p: usize, j: u32)
        requires basic { p < length self.old.tab.basic.items }
        requires taken { p < length self.old.taken.items }
        ensures basic { self.new.tab.basic.items ≡ slice_set self.old.tab.basic.items p j }
        ensures taken { self.new.taken.items ≡ slice_set self.old.taken.items p true }
        ensures rest { self.new.tab ≡ record self.old.tab { basic = self.new.tab.basic } }
    {
        self.tab.basic[p] = j;
        self.taken[p] = true;
    }

    // Solves the equations for column `j` at position `p`: all rows change as in a pivot there, with their values.
    // False where a number is past the width.
    fn solve_at(&mut self, p: usize, j: usize) -> bool
        requires complete { IsComplete T.value self.old }
        requires place { p < height self.old.tab }
        requires column { j < width self.old.tab }
        ensures complete { IsTrue result → IsComplete T.value self.new }
        ensures size { IsTrue result → width self.new.tab ≡ width self.old.tab }
        ensures solved { IsTrue result → (f : forms) (basis : List statuses) → stated.basis_at basis j ≡ Basic →
            (s : IsSolvedBelow T.value f basis j self.old) → stated.open_below s.now j f.rows ≡ Some p →
            IsSolvedBelow T.value f basis (j + 1) self.new }
    {
        let n = self.tab.width();
        let turn = Turn {
            place: p,
            col: j,
            leaves_at: none(),
            enters_from: none(),
        };
        if !turn_rows(&mut self.tab.rows, &mut self.tab.costs, n, turn) {
            return false;
        }
        self.mark(p, j as u32);
        true
    }

    // Solves the equations for column `j` at the least position that is open for it. `Stopped` where none is, or the
    // work is spent; `Narrow` where a number is past the width.
    fn solve(&mut self, j: usize, work: &mut u64) -> Progress
        requires complete { IsComplete T.value self.old }
        requires column { j < width self.old.tab }
        ensures complete { IfDone result (IsComplete T.value self.new) }
        ensures size { IfDone result (width self.new.tab ≡ width self.old.tab) }
        ensures solved { IfDone result ((f : forms) (basis : List statuses) → stated.basis_at basis j ≡ Basic →
            IsSolvedBelow T.value f basis j self.old → IsSolvedBelow T.value f basis (j + 1) self.new) }
    {
        let Some(p) = self.open(j) else {
            return Progress::Stopped;
        };
        let step = Step::Pivot {
            place: p as u32,
            col: j as u32,
            to: Status::AtLower,
        };
        if !spend(work, effort_of(&self.tab, step)) {
            return Progress::Stopped;
        }
        if self.solve_at(p, j) {
            Progress::Done
        } else {
            Progress::Narrow
        }
    }

    // Solves the equations for column `j` if it is basic, with what comes of that. Another column changes nothing, and
    // is `Done`.
    fn take(&mut self, basis: &[Status], j: usize, work: &mut u64) -> Progress
        requires complete { IsComplete T.value self.old }
        requires all { length basis.now ≡ width self.old.tab }
        requires column { j < width self.old.tab }
        ensures complete { IfDone result (IsComplete T.value self.new) }
        ensures size { IfDone result (width self.new.tab ≡ width self.old.tab) }
        ensures solved { IfDone result ((f : forms) →
            IsSolvedBelow T.value f basis.now j self.old → IsSolvedBelow T.value f basis.now (j + 1) self.new) }
    {
        if is_basic(basis[j]) {
            self.solve(j, work)
        } else {
            Progress::Done
        }
    }

    /// Solves the equations for the basic columns in order, each at the least position that has no column and where its
    /// entry is not 0. `Stopped` where a column has no such position, or the work is spent; `Narrow` where a number is
    /// past the width.
    pub(crate) fn run(&mut self, basis: &[Status], work: &mut u64) -> Progress
        requires complete { IsComplete T.value self.old }
        requires all { length basis.now ≡ width self.old.tab }
        ensures complete { IfDone result (IsComplete T.value self.new) }
        ensures size { IfDone result (width self.new.tab ≡ width self.old.tab) }
        ensures solved { IfDone result ((f : forms) → IsSolvedBelow T.value f basis.now 0 self.old →
            IsSolvedBelow T.value f basis.now (length basis.now) self.new) }
    {
        for j in 0..basis.len() {
            match self.take(basis, j, work) {
                Progress::Done => {}
                Progress::Narrow => return Progress::Narrow,
                Progress::Stopped => return Progress::Stopped,
            }
        }
        Progress::Done
    }
}
