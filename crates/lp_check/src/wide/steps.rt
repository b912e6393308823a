// The steps of a run: sums of products, and tests against one limit.
ghost use Rattle.std.specs.Prelude.{◌≡◌, ◌<◌, ℕ, Ok, None, IfOk, length};
ghost use Rattle.spec_model.specs.Model.{part as part_of};
ghost use Rattle.spec_check.specs.Run as run;

use crate::wide::certificate::Ratios;
use lp_ratio::Ratio;
use std::alloc::{AllocError, Global};

/// The number of a certificate's list at `k`, counted from 0.
pub fn part(z: &Ratios, k: u32) -> &Ratio
    requires { k < length z.now }
    ensures { result.now ≡ part_of z.now k }
{
    z.get(k as usize)
}

/// `s` with the product `v * w` added.
pub(crate) fn plus_wide_product(
    alloc: Global,
    v: &Ratio,
    w: &Ratio,
    s: Ratio,
) -> Result<Ratio, AllocError>
    ensures { IfOk result (λ r. run.plus_product None v.now w.now s ≡ Ok r) }
{
    let product = v.times(alloc, w)?;
    let sum = s.plus(alloc, &product)?;
    Ok(sum)
}

// Whether `v` is at least the limit; true where there is none.
pub(crate) fn is_at_least(
    alloc: Global,
    limit: Option<Ratio>,
    v: &Ratio,
) -> Result<bool, AllocError>
    ensures { IfOk result (λ b. (n : ℕ) → run.at_least n None limit v.now ≡ run.need n b) }
{
    match limit {
        None => Ok(true),
        Some(k) => {
            let order = v.compare(alloc, &k)?;
            Ok(!order.is_lt())
        }
    }
}

// Whether `v` is at most the limit; true where there is none.
pub(crate) fn is_at_most(alloc: Global, limit: Option<Ratio>, v: &Ratio) -> Result<bool, AllocError>
    ensures { IfOk result (λ b. (n : ℕ) → run.at_most n None limit v.now ≡ run.need n b) }
{
    match limit {
        None => Ok(true),
        Some(k) => {
            let order = v.compare(alloc, &k)?;
            Ok(!order.is_gt())
        }
    }
}

/// Whether there is a limit and `v` equals it.
pub fn stands_at(alloc: Global, limit: Option<Ratio>, v: &Ratio) -> Result<bool, AllocError>
    ensures { IfOk result (λ b. b ≡ run.stands_at limit v.now) }
{
    match limit {
        None => Ok(false),
        Some(k) => {
            let order = k.compare(alloc, v)?;
            Ok(order.is_eq())
        }
    }
}
