// The steps of a run: two operations on fractions, and tests against one limit.
ghost use Rattle.std.specs.Prelude.{◌≡◌, ◌<◌, Some, length};
ghost use Rattle.spec_exact.specs.Narrow.{number_limit};
ghost use Rattle.spec_model.specs.Model.{part as part_of};
ghost use Rattle.spec_check.specs.Run as run;

use crate::certificate::CheckStop;
use lp_frac::{Frac, Fracs, are_same, cmp};
use std::cmp::Ordering;

/// The number of a certificate's list at `k`, counted from 0.
pub fn part(z: &Fracs, k: u32) -> Frac
    requires { k < length z.now }
    ensures { result ≡ part_of z.now k }
{
    z.at(k as usize)
}

/// `s` with the product `v * w` added. Refused where an operation is past 127 bits.
pub(crate) fn plus_product(v: Frac, w: Frac, s: Frac) -> Result<Frac, CheckStop>
    ensures { result ≡ run.plus_product (Some number_limit) v w s }
{
    let sum = lp_frac::plus_product(v, w, s)?;
    Ok(sum)
}

/// `s` with the product `v * w` taken off. Refused where an operation is past 127 bits.
pub(crate) fn less_product(v: Frac, w: Frac, s: Frac) -> Result<Frac, CheckStop>
    ensures { result ≡ run.less_product (Some number_limit) v w s }
{
    let rest = lp_frac::less_product(v, w, s)?;
    Ok(rest)
}

/// Condition `n` fails unless `v` is at least the limit, or there is none. Refused where comparing is past 127 bits.
pub(crate) fn at_least(n: u32, limit: Option<Frac>, v: Frac) -> Result<(), CheckStop>
    ensures { result ≡ run.at_least n (Some number_limit) limit v }
{
    match limit {
        None => Ok(()),
        Some(k) => match cmp(v, k)? {
            Ordering::Less => Err(CheckStop::No(n)),
            Ordering::Equal | Ordering::Greater => Ok(()),
        },
    }
}

/// Condition `n` fails unless `v` is at most the limit, or there is none. Refused where comparing is past 127 bits.
pub(crate) fn at_most(n: u32, limit: Option<Frac>, v: Frac) -> Result<(), CheckStop>
    ensures { result ≡ run.at_most n (Some number_limit) limit v }
{
    match limit {
        None => Ok(()),
        Some(k) => match cmp(v, k)? {
            Ordering::Less | Ordering::Equal => Ok(()),
            Ordering::Greater => Err(CheckStop::No(n)),
        },
    }
}

/// Condition `n` fails unless the test holds.
pub(crate) fn need(n: u32, holds: bool) -> Result<(), CheckStop>
    ensures { result ≡ run.need n holds }
{
    if holds { Ok(()) } else { Err(CheckStop::No(n)) }
}

/// Whether there is a limit and `v` equals it.
pub(crate) fn stands_at(limit: Option<Frac>, v: Frac) -> bool
    ensures { result ≡ run.stands_at limit v }
{
    match limit {
        None => false,
        Some(k) => are_same(k, v),
    }
}
