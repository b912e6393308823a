// A model as a linear program: a logical column for each row, bounds of all columns, and costs to be made least.
ghost use Rattle.std.specs.Prelude.{◌≡◌, ◌+◌, IfOk, IfSome};
ghost use Rattle.spec_model.specs.Model.{height, width};

use lp_check::signed;
use lp_frac::Frac;
use lp_model::{Model, lower_limit, upper_limit};
use std::alloc::{AllocError, Global};

/// A model with the bounds of its structural and then of its logical columns, and their costs.
pub(crate) struct Program<'a> {
    pub(crate) model: &'a Model,
    pub(crate) lowers: Vec<Option<Frac>>,
    pub(crate) uppers: Vec<Option<Frac>>,
    pub(crate) costs: Vec<Frac>,
}

impl Drop for Program<'_> {
    fn drop(self) {
        let Program {
            model: _,
            lowers,
            uppers,
            costs,
        } = self;
        drop(lowers);
        drop(uppers);
        drop(costs);
    }
}

impl Program<'_> {
    /// How many rows there are.
    pub(crate) fn rows(&self) -> usize {
        self.model.rows() as usize
    }

    /// How many structural columns there are.
    pub(crate) fn cols(&self) -> usize {
        self.model.cols() as usize
    }

    /// How many columns there are, structural and logical ones.
    pub(crate) fn columns(&self) -> usize
        ensures { result ≡ width self.now.model.now + height self.now.model.now }
    {
        self.model.cols() as usize + self.model.rows() as usize
    }

    /// The entries of a structural column, none where there is no such column.
    pub(crate) fn entries(&self, j: usize) -> &[(u32, Frac)] {
        match u32::try_from(j) {
            Ok(j) if j < self.model.cols() => self.model.entries(j),
            Ok(_) | Err(_) => &[],
        }
    }

    /// The lower bound of a column, if there is one.
    pub(crate) fn lower(&self, k: usize) -> Option<Frac> {
        bound_at(&self.lowers, k)
    }

    /// The upper bound of a column, if there is one.
    pub(crate) fn upper(&self, k: usize) -> Option<Frac> {
        bound_at(&self.uppers, k)
    }
}

// The bound at `k`; none where it is absent or the list is shorter.
fn bound_at(bounds: &[Option<Frac>], k: usize) -> Option<Frac> {
    match bounds.get(k) {
        Some(bound) => *bound,
        None => None,
    }
}

// Adds the bounds of all structural columns to the lists, and their costs, negated where the objective is to be made
// greatest.
fn put_columns(
    model: &Model,
    lowers: &mut Vec<Option<Frac>>,
    uppers: &mut Vec<Option<Frac>>,
    costs: &mut Vec<Frac>,
) -> Result<(), AllocError> {
    for j in 0..model.cols() {
        let column = model.col(j);
        lowers.push(column.lower)?;
        uppers.push(column.upper)?;
        costs.push(signed(model.sense(), column.cost))?;
    }
    Ok(())
}

// Adds the limits of all rows to the lists of bounds. Says whether all are within 127 bits.
fn put_rows(
    model: &Model,
    lowers: &mut Vec<Option<Frac>>,
    uppers: &mut Vec<Option<Frac>>,
) -> Result<bool, AllocError> {
    for i in 0..model.rows() {
        let row = model.row(i);
        match (lower_limit(row), upper_limit(row)) {
            (Ok(lower), Ok(upper)) => {
                lowers.push(lower)?;
                uppers.push(upper)?;
            }
            _ => return Ok(false),
        }
    }
    Ok(true)
}

/// The program of a model. There is none where a limit of a row is past the limit on numbers.
pub(crate) fn program_of<'a>(
    alloc: Global,
    model: &'a Model,
) -> Result<Option<Program<'a>>, AllocError>
    ensures { IfOk result (λ o. IfSome o (λ p. p.model.now ≡ model.now)) }
{
    let mut program = Program {
        model,
        lowers: Vec::new(alloc),
        uppers: Vec::new(alloc),
        costs: Vec::new(alloc),
    };
    let Program {
        model: _,
        lowers,
        uppers,
        costs,
    } = &mut program;
    put_columns(model, lowers, uppers, costs)?;
    if put_rows(model, lowers, uppers)? {
        Ok(Some(program))
    } else {
        Ok(None)
    }
}
