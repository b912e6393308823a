// Why a basis has no factors, over the type F of numbers.

use spec_exact::Past;
use std::fmt::Debug;

/// Why a basis has no factors: its columns are dependent, or an operation is past the limit.
#[derive(Clone, Copy)]
pub enum NoFactors<F: Debug> {
    /// A basic column depends on those before it.
    Singular,
    /// The operation that is past the limit.
    Past(Past<F>),
}
