// The coefficients of a form row by row, so that none is looked for among the entries of its column.
ghost use Rattle.std.specs.Prelude.{◌≡◌, ◌<◌, ◌+◌, IfOk};
ghost use Rattle.lp_tableau.specs.Begun.{HoldsColumns};

use crate::grid::Grid;
use crate::start::zeros;
use lp_form::Form;
use std::alloc::{AllocError, Global};

// Writes the entries of column `j` into their rows of the grid.
fn put_column(grid: &mut Grid, form: &Form, j: u32)
    requires column { j < form.now.cols }
    requires held { HoldsColumns form.now j grid.old }
    ensures { HoldsColumns form.now (j + 1) grid.new }
{
    let entries = form.entries(j);
    for t in (0..entries.len()).rev() {
        let (row, value) = entries[t];
        grid.set(row as usize, j as usize, value);
    }
}

// The coefficients of the structural columns, row by row, if there is memory.
pub(crate) fn coefficients(alloc: Global, form: &Form) -> Result<Grid, AllocError>
    ensures { IfOk result (HoldsColumns form.now form.now.cols) }
{
    let (rows, cols) = (form.rows() as usize, form.cols() as usize);
    let mut grid = Grid::from_block(rows, cols, zeros(alloc, rows * cols)?);
    for j in 0..form.cols() {
        put_column(&mut grid, form, j);
    }
    Ok(grid)
}
