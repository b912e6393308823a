// How a solve by a smaller model ends, over the types F of numbers, L of lists of numbers and B of bases.
use spec_check::SolveEnd;
use spec_exact::Past;
use std::fmt::Debug;

/// Why a model is solved as it is.
#[derive(Clone, Copy)]
pub enum Why<F: Debug> {
    /// An operation is past the limit: in a reduction, in the solve of the smaller model, in the way of its certificate
    /// back, or in the check of what is carried back.
    Past(Past<F>),
    /// The budget is spent in the solve of the smaller model.
    Spent,
}

/// Which model is solved.
#[derive(Clone, Copy)]
pub enum Way<F: Debug> {
    /// A smaller one, with so many rows and columns.
    Reduced { rows: u32, columns: u32 },
    /// The model as it is.
    Plain(Why<F>),
}

/// How a solve by a smaller model ends: what is said is said of the model itself.
#[derive(Drop)]
pub struct Presolved<F: Debug, L, B> {
    pub way: Way<F>,
    pub end: SolveEnd<F, L, B>,
}
