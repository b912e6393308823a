// How steps of the simplex method end and what each of them does, over the type F of numbers.
ghost use Rattle.std.specs.Prelude.{◌≡◌};
ghost use Rattle.spec_simplex.specs.declared.ends.RunStop.TheVariants as stop;

use spec_exact::Past;
use spec_pivot::{Status, Way};
use std::fmt::Debug;
use thiserror::Error;

/// Why a model has no form.
#[derive(Clone, Copy, Debug, Error)]
pub enum FormFault<F: Debug> {
    /// The first column whose lower bound is greater than its upper one.
    #[error("expected bounds with a number between them, but those of column {0} clash")]
    Clash(u32),
    /// The operation that is past the limit.
    #[error("{0}")]
    Past(Past<F>),
}

/// How a row begins, by its sum where each structural column has its first value: the sum, or its gap to a limit.
#[derive(Clone, Copy)]
pub enum RowStart<F> {
    /// The sum is within the row's limits.
    Within(F),
    /// The sum is so much below the lower limit.
    Below(F),
    /// The sum is so much above the upper limit.
    Above(F),
}

/// A column that enters, and the way in which its value moves.
#[derive(Clone, Copy)]
pub struct Entering {
    pub col: u32,
    pub direction: Way,
}

/// The least ratio of a ratio test so far, the column that stops the entering column there, and where it goes.
#[derive(Clone, Copy)]
pub struct Best<F> {
    pub ratio: F,
    pub col: u32,
    /// The column's position, which the entering column itself has none of.
    pub place: Option<u32>,
    /// The bound that the column goes to.
    pub to: Status,
}

/// How a run of the primal method ends.
#[derive(Clone, Copy)]
pub enum PrimalEnd {
    /// No column may enter.
    Optimal,
    /// Nothing stops this column, which moves in this direction.
    Unbounded { col: u32, direction: Way },
}

/// What a step of the primal method does: an end, a flip or a pivot.
#[derive(Clone, Copy)]
pub enum Choice<F> {
    End(PrimalEnd),
    /// The column goes to its other bound.
    Flip {
        col: u32,
    },
    /// The column moves by `theta` and takes the position, whose column leaves to the bound `to`.
    Pivot {
        place: u32,
        col: u32,
        theta: F,
        to: Status,
    },
}

/// Why steps of the simplex method stop before an end.
#[derive(Clone, Copy)]
pub enum RunStop<F: Debug> {
    /// The operation that is past the limit.
    Past(Past<F>),
    /// As many pivots and flips were made as the budget has, and one more is due.
    Spent,
}

impl<F: Debug> From<Past<F>> for RunStop<F> {
    ghost from_gives = { λ p e. e ≡ stop.Past p };

    // The refusal of the operation p as the stop of a run.
    fn from(p: Past<F>) -> Self {
        RunStop::Past(p)
    }
}

/// Why a basis has no tableau.
#[derive(Clone, Copy)]
pub enum StartStop<F: Debug> {
    /// A basic column depends on those before it.
    Singular,
    /// The operation that is past the limit.
    Past(Past<F>),
}

/// Whether a tableau is primal feasible, can be made dual feasible by flips, or neither.
#[derive(Clone, Copy)]
pub enum Fit {
    /// Each basic value is within its bounds.
    Primal,
    /// A basic value is outside its bounds. Each reduced cost of a column that is not fixed has the sign that it needs,
    /// or gets it when the column goes to its other bound.
    Dual,
    /// A basic value is outside its bounds, and flips do not make the tableau dual feasible.
    Unfit,
}

/// A basic column that is outside its bounds, and the way in which its value comes back: `Up` from below the lower one.
#[derive(Clone, Copy)]
pub struct Leaving {
    pub col: u32,
    pub direction: Way,
}

/// The least ratio of the dual method so far, and the column that would enter with it.
#[derive(Clone, Copy)]
pub struct Cheapest<F> {
    pub ratio: F,
    pub col: u32,
}

/// How a run of the dual method ends.
#[derive(Clone, Copy)]
pub enum DualEnd {
    /// Each basic value is within its bounds.
    Optimal,
    /// The column at this position has to move in this direction to come back inside its bounds, and no column can
    /// bring it back.
    Infeasible { position: u32, direction: Way },
}

/// What a step of the dual method does: an end or a pivot.
#[derive(Clone, Copy)]
pub enum DualChoice {
    End(DualEnd),
    /// The column takes the position, whose column leaves to the bound `to`.
    Pivot { place: u32, col: u32, to: Status },
}

/// Why a warm start does not end with an answer.
#[derive(Clone, Copy)]
pub enum WarmStop<F: Debug> {
    /// The basis has no tableau.
    Singular,
    /// Its tableau is neither primal feasible, nor dual feasible after flips.
    Unfit,
    /// The operation that is past the limit.
    Past(Past<F>),
    /// As many pivots and flips were made as the budget has, and one more is due.
    Spent,
}
