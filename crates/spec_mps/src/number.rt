// What a text may be as a number and as a bound, over the type F of numbers.
use thiserror::Error;

/// Why a text is no number.
#[derive(Clone, Copy, Debug, Error)]
pub enum NumFault {
    /// It is neither a decimal nor a quotient.
    #[error("this is no number")]
    Shape,
    /// It is a number that 127 bits do not hold.
    #[error("this number is past 127 bits")]
    Wide,
}

/// A bound of a column.
#[derive(Clone, Copy)]
pub enum BoundValue<F> {
    /// Of a size below 10^20.
    Finite(F),
    PlusInf,
    MinusInf,
}
