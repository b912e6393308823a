// Lists that contracts see as plain lists: of fractions, and of the entries of a column.
ghost use Rattle.std.specs.Prelude.{◌≡◌, replicate, IfOk};
ghost use Rattle.spec_exact.specs.Fraction.{0ℚ};

use crate::frac::Frac;
use crate::readers::zero;
use lp_base::Items;
use std::alloc::{AllocError, Global};

/// A list of fractions.
pub type Fracs = Items<Frac>;

/// The entries of a column: rows, counted from 0, each with a fraction.
pub type Entries = Items<(u32, Frac)>;

/// A list of `n` fractions that are all 0.
pub fn zeros(alloc: Global, n: usize) -> Result<Fracs, AllocError>
    ensures { IfOk result (λ v. v ≡ replicate n 0ℚ) }
{
    let items = Vec::from_elem(alloc, zero(), n)?;
    Ok(Fracs::from_vec(items))
}
