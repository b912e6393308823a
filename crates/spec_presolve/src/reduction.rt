// What makes a model smaller, over the type F of numbers. Rows and columns have the numbers that they have then.

/// How many entries stand in a row: none, one, or more.
#[derive(Clone, Copy)]
pub enum InRow<F> {
    Nothing,
    /// One entry, in a column.
    One { column: u32, value: F },
    /// Two entries or more.
    More,
}

/// One step to a smaller model.
#[derive(Clone, Copy)]
pub enum Reduction<F> {
    /// A row without entries goes.
    Empty {
        row: u32,
    },
    /// A row goes that has one entry, `value` in a column. Where it gives the column a tighter lower or upper bound
    /// than the column has, that is here.
    Single {
        row: u32,
        column: u32,
        value: F,
        lower: Option<F>,
        upper: Option<F>,
    },
    /// A column goes whose bounds are both `value`.
    Fixed {
        column: u32,
        value: F,
    },
}

/// Why no step follows.
#[derive(Clone, Copy)]
pub enum Halt {
    /// There is nothing that goes.
    Done,
    /// The lower bound of a column is above its upper one.
    Clash { column: u32 },
    /// The lower limit of a row without entries is above 0.
    Above { row: u32 },
    /// The upper limit of a row without entries is below 0.
    Below { row: u32 },
}

/// What comes next: a step to a smaller model, or the end of all steps.
#[derive(Clone, Copy)]
pub enum Choice<F> {
    Reduce(Reduction<F>),
    Halt(Halt),
}
