// The limits of a row and of a column, as numbers of any width.
ghost use Rattle.std.specs.Prelude.{◌≡◌, Ok, None, IfOk};
ghost use Rattle.spec_exact.specs.Fraction.{◌+ℚ◌};
ghost use Rattle.spec_model.specs.Model as model;
ghost use Rattle.spec_check.specs.Run as run;

use lp_frac::{Frac, neg};
use lp_model::{Row, RowLimit, lower_of, upper_of};
use lp_ratio::Ratio;
use std::alloc::{AllocError, Global};

/// A column's bound as a fraction of any width, if there is one.
pub fn limit_of(alloc: Global, bound: Option<Frac>) -> Result<Option<Ratio>, AllocError>
    ensures { IfOk result (λ l. l ≡ bound) }
{
    match bound {
        None => Ok(None),
        Some(v) => {
            let limit = Ratio::new(alloc, v)?;
            Ok(Some(limit))
        }
    }
}

// The sum of two fractions, at any width.
fn sum(alloc: Global, v: Frac, w: Frac) -> Result<Ratio, AllocError>
    ensures { IfOk result (λ r. r ≡ v +ℚ w) }
{
    let left = Ratio::new(alloc, v)?;
    let right = Ratio::new(alloc, w)?;
    left.plus(alloc, &right)
}

// The number that a limit of a row comes to, exactly, of any width; none where the limit is absent.
fn taken(alloc: Global, limit: RowLimit) -> Result<Option<Ratio>, AllocError>
    ensures { IfOk result (λ l. l ≡ model.limit_of limit) }
{
    match limit {
        RowLimit::Absent => Ok(None),
        RowLimit::Given(v) => limit_of(alloc, Some(v)),
        RowLimit::Sum(v, w) => {
            let limit = sum(alloc, v, w)?;
            Ok(Some(limit))
        }
        RowLimit::Difference(v, w) => {
            let limit = sum(alloc, v, neg(w))?;
            Ok(Some(limit))
        }
    }
}

/// The least that the row's sum may be, of any width; none where there is no limit.
pub fn lower_limit(alloc: Global, row: &Row) -> Result<Option<Ratio>, AllocError>
    ensures { IfOk result (λ l. run.lower_run None row.now ≡ Ok l) }
{
    taken(alloc, lower_of(row))
}

/// The most that the row's sum may be, of any width; none where there is no limit.
pub fn upper_limit(alloc: Global, row: &Row) -> Result<Option<Ratio>, AllocError>
    ensures { IfOk result (λ l. run.upper_run None row.now ≡ Ok l) }
{
    taken(alloc, upper_of(row))
}
