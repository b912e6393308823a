// The lines of basis files, over the type N of names.
use crate::fault::BasCode;

/// A data card: the words of MPS basis files, with the names behind them.
#[derive(Drop)]
pub enum Card<N> {
    /// `XU`: the column is basic, and the row is at its upper limit, else at its lower one, else at 0.
    Xu { column: N, row: N },
    /// `XL`: the column is basic, and the row is at its lower limit, else at its upper one, else at 0.
    Xl { column: N, row: N },
    /// `UL`: the column is at its upper bound.
    Ul { column: N },
    /// `LL`: the column stands where it does without a card.
    Ll { column: N },
}

/// What a line of a basis file is.
#[derive(Drop)]
pub enum Reading<N> {
    /// A comment or a blank line.
    Skipped,
    /// `NAME`, whatever stands behind it.
    Named,
    /// `ENDATA`, whatever stands behind it.
    Ends,
    /// A data card.
    Says(Card<N>),
    /// None of these, for this reason.
    Wrong(BasCode),
}
