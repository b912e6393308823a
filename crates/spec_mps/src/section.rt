// The sections of a text.

/// A section, by the word that begins it.
#[derive(Clone, Copy)]
pub enum Section {
    /// `NAME`
    Name,
    /// `OBJSENSE`
    Sense,
    /// `ROWS`
    Rows,
    /// `COLUMNS`
    Columns,
    /// `RHS`
    RightSides,
    /// `RANGES`
    Ranges,
    /// `BOUNDS`
    Bounds,
    /// `ENDATA`
    End,
}

/// Which sections have begun.
#[derive(Clone, Copy)]
pub struct Seen {
    pub name: bool,
    pub sense: bool,
    pub rows: bool,
    pub columns: bool,
    pub right_sides: bool,
    pub ranges: bool,
    pub bounds: bool,
}
