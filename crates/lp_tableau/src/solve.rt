// Rows that are solved for columns, one after the other.
ghost use Rattle.std.specs.Prelude.{◌≡◌, ◌≢◌, ◌<◌, ◌+◌, IfSome, Some, None, length, get_or};
ghost use Rattle.spec_exact.specs.Fraction.{0ℚ, eq_ℚ};
ghost use Rattle.spec_exact.specs.Narrow.{number_limit};
ghost use Rattle.spec_simplex.specs.Tableau.{at_place};
ghost use Rattle.spec_simplex.specs.Tableau.{is_basic as is_basic_of};
ghost use Rattle.spec_simplex.specs.Eliminate as elimination;
ghost use Rattle.lp_tableau.specs.Grid.{IsGrid};
ghost use Rattle.lp_tableau.specs.Based.{IsOpenAt, AreInside, Solves};

use crate::pivot::Pivot;
use crate::start::width;
use crate::twins::Twins;
use lp_form::{Basis, BasisStop, Form, Singular, is_basic};
use lp_frac::{Frac, Stop, are_same, zero};

// Whether a position has no column yet.
fn has_none(column: Option<u32>) -> bool
    ensures { result ≡ elimination.has_none column }
{
    match column {
        None => true,
        Some(_) => false,
    }
}

/// Whether the fraction is 0.
pub fn is_zero(v: Frac) -> bool
    ensures { result ≡ eq_ℚ v 0ℚ }
{
    are_same(v, zero())
}

// Whether position `i` has no column yet, and its entry in column `j` is not 0.
fn is_open(grid: &Twins, basic: &[Option<u32>], form: &Form, j: u32, i: u32) -> bool
    requires shape { IsGrid form.now.rows (form.now.cols + form.now.rows + form.now.rows) grid.now }
    requires places { length basic.now ≡ form.now.rows }
    requires column { j < form.now.cols + form.now.rows + form.now.rows }
    requires place { i < form.now.rows }
    ensures { result ≡ elimination.is_open (record { rows = grid.now; basic = basic.now }) j i }
{
    has_none(basic[i as usize]) && !is_zero(grid.at(i as usize, j as usize))
}

// The least position that has no column yet and whose entry in column `j` is not 0; none if there is none.
fn open(grid: &Twins, basic: &[Option<u32>], form: &Form, j: u32) -> Option<u32>
    requires shape { IsGrid form.now.rows (form.now.cols + form.now.rows + form.now.rows) grid.now }
    requires places { length basic.now ≡ form.now.rows }
    requires column { j < form.now.cols + form.now.rows + form.now.rows }
    ensures least { result ≡ elimination.open_below (record { rows = grid.now; basic = basic.now }) j form.now.rows }
    ensures open { IfSome result (IsOpenAt form.now.rows grid.now j) }
{
    for i in 0..form.rows() {
        if is_open(grid, basic, form, j, i) {
            return Some(i);
        }
    }
    None
}

// Makes column `j` basic at the least open position, by a pivot of all rows there. Without such a position the basis is
// singular. Refused where a number is past 127 bits.
fn solve(grid: &mut Twins, basic: &mut [Option<u32>], form: &Form, j: u32) -> Result<(), BasisStop>
    requires shape { IsGrid form.now.rows (form.now.cols + form.now.rows + form.now.rows) grid.old }
    requires places { length basic.old ≡ form.now.rows }
    requires inside { AreInside (form.now.cols + form.now.rows + form.now.rows) basic.old }
    requires column { j < form.now.cols + form.now.rows + form.now.rows }
    ensures solved { Solves (elimination.solved_run (Some number_limit) form.now
        (record { rows = grid.old; basic = basic.old }) j) grid.new basic.new result }
    ensures shape { IsGrid form.now.rows (form.now.cols + form.now.rows + form.now.rows) grid.new }
    ensures places { length basic.new ≡ form.now.rows }
    ensures inside { AreInside (form.now.cols + form.now.rows + form.now.rows) basic.new }
{
    let Some(p) = open(grid, basic, form, j) else {
        return Err(Stop::Cause(Singular));
    };
    let at = Pivot {
        position: p,
        column: j,
    };
    grid.turn(form.rows(), width(form), at)?;
    basic[p as usize] = Some(j);
    Ok(())
}

// Whether the basis has column `j` as a basic one.
fn is_basic_at(basis: &Basis, j: u32) -> bool
    requires { j < length basis.now }
    ensures { result ≡ is_basic_of (elimination.basis_at basis.now j) }
{
    is_basic(basis.at(j as usize))
}

// Solves the rows for each basic column of the basis, in order of their numbers; singular where one has no open
// position, and refused where a number is past 127 bits.
pub(crate) fn eliminate(
    grid: &mut Twins,
    basic: &mut [Option<u32>],
    form: &Form,
    basis: &Basis,
) -> Result<(), BasisStop>
    requires rows { grid.old ≡ (elimination.unsolved form.now).rows }
    requires places { basic.old ≡ (elimination.unsolved form.now).basic }
    requires statuses { length basis.now ≡ form.now.cols + form.now.rows }
    ensures solved { Solves (elimination.eliminate_run (Some number_limit) form.now basis.now) grid.new basic.new result }
    ensures shape { IsGrid form.now.rows (form.now.cols + form.now.rows + form.now.rows) grid.new }
    ensures places { length basic.new ≡ form.now.rows }
    ensures inside { AreInside (form.now.cols + form.now.rows + form.now.rows) basic.new }
{
    for j in 0..form.cols() + form.rows() {
        if is_basic_at(basis, j) {
            solve(grid, basic, form, j)?;
        }
    }
    Ok(())
}
