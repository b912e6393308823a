// Certificates of 127 bits as those whose numbers may have any width.
ghost use Rattle.std.specs.Prelude.{◌≡◌, IfOk};

use lp_check::Certificate;
use lp_check::wide::{self, Ratios};
use lp_frac::{Frac, Fracs};
use lp_ratio::Ratio;
use spec_check::Known;
use std::alloc::{AllocError, Global};

// A list of numbers of 127 bits as one of fractions of any width.
fn widened(alloc: Global, list: &Fracs) -> Result<Ratios, AllocError>
    ensures { IfOk result (λ x. x ≡ list.now) }
{
    let numbers = list.as_slice();
    let mut wide: Vec<Ratio> = Vec::new(alloc);
    for i in 0..numbers.len() {
        wide.push(Ratio::new(alloc, numbers[i])?)?;
    }
    Ok(Ratios::from_vec(wide))
}

/// A certificate of numbers of 127 bits as one with numbers of any width.
pub(crate) fn widened_certificate(
    alloc: Global,
    certificate: &Certificate,
) -> Result<wide::Certificate, AllocError>
    ensures { IfOk result (λ c. c ≡ certificate.now) }
{
    match certificate {
        Certificate::Optimal { x, y } => Ok(wide::Certificate::Optimal {
            x: widened(alloc, x)?,
            y: widened(alloc, y)?,
        }),
        Certificate::Infeasible { y } => Ok(wide::Certificate::Infeasible {
            y: widened(alloc, y)?,
        }),
        Certificate::Clash(column) => Ok(wide::Certificate::Clash(*column)),
        Certificate::Unbounded { x, r } => Ok(wide::Certificate::Unbounded {
            x: widened(alloc, x)?,
            r: widened(alloc, r)?,
        }),
    }
}

/// An answer with a value of 127 bits as one with a value of any width.
pub(crate) fn widened_known(alloc: Global, known: Known<Frac>) -> Result<wide::Known, AllocError>
    ensures { IfOk result (λ k. k ≡ known) }
{
    match known {
        Known::Optimal(value) => Ok(wide::Known::Optimal(Ratio::new(alloc, value)?)),
        Known::Infeasible => Ok(wide::Known::Infeasible),
        Known::Unbounded => Ok(wide::Known::Unbounded),
    }
}
