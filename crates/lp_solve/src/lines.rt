// Whether the numbers of a certificate fit their lines.
ghost use Rattle.std.specs.Prelude.{◌≡◌, ◌<◌, ◌^◌, IfOk, IsTrue, All};
ghost use Rattle.spec_solve.specs.Exact.{FitsLine, FitsLines};
ghost use Rattle.lp_solve.specs.Lines as lines;

use lp_check::wide::Certificate;
use lp_natural::Natural;
use lp_ratio::{Lowest, Ratio};
use std::alloc::{AllocError, Global};

// 10^15, from which the power of ten is made by squaring.
const STEP: u64 = 1_000_000_000_000_000;

// How often 10^15 is squared to have as many zeros as a numerator and a denominator may have digits, each.
const SQUARINGS: u32 = 9;

// The word, squared `times` times.
fn squared(alloc: Global, word: u64, times: u32) -> Result<Natural, AllocError>
    ensures { IfOk result (λ n. n ≡ word ^ (2 ^ times)) }
{
    let mut power = Natural::from_u128(alloc, u128::from(word))?;
    for i in 0..times {
        let square = power.times(alloc, &power)?;
        power = square;
    }
    Ok(power)
}

// 10 to the power of 7,680: a numerator and a denominator of so many digits each fit a line together.
fn line_power(alloc: Global) -> Result<Natural, AllocError>
    ensures { IfOk result (λ n. n ≡ lines.line_power) }
{
    squared(alloc, STEP, SQUARINGS)
}

// Whether the number is below the power of ten.
#[tactic(auto, using(crate::proofs::LineLemmas::below_from))]
fn is_below(number: &Natural, power: &Natural) -> bool
    ensures { IsTrue result → number.now < power.now }
{
    number.compare(power).is_lt()
}

// Whether the numerator and the denominator are both below the power.
fn both_below(lowest: &Lowest, power: &Natural) -> bool
    ensures { IsTrue result → (lowest.now.top < power.now) × (lowest.now.bottom < power.now) }
{
    is_below(&lowest.top, power) && is_below(&lowest.bottom, power)
}

// Whether a fraction surely takes no more than a line: its numerator and its denominator, in lowest terms, are both
// below the power of half a line.
fn fits(alloc: Global, number: &Ratio, power: &Natural) -> Result<bool, AllocError>
    requires { power.now ≡ lines.line_power }
    ensures { IfOk result (λ b. IsTrue b → FitsLine number.now) }
{
    let lowest = number.lowest(alloc)?;
    let is_short = both_below(&lowest, power);
    drop(lowest);
    Ok(is_short)
}

// Whether each number of the list surely takes no more than a line, by the power of half a line.
fn all_fit(alloc: Global, list: &[Ratio], power: &Natural) -> Result<bool, AllocError>
    requires { power.now ≡ lines.line_power }
    ensures { IfOk result (λ b. IsTrue b → All FitsLine list.now) }
{
    for i in 0..list.len() {
        if !fits(alloc, &list[i], power)? {
            return Ok(false);
        }
    }
    Ok(true)
}

// Whether each number of both lists surely takes no more than a line, by the power of half a line.
fn both_fit(
    alloc: Global,
    first: &[Ratio],
    second: &[Ratio],
    power: &Natural,
) -> Result<bool, AllocError>
    requires { power.now ≡ lines.line_power }
    ensures { IfOk result (λ b. IsTrue b → All FitsLine first.now × All FitsLine second.now) }
{
    if all_fit(alloc, first, power)? {
        all_fit(alloc, second, power)
    } else {
        Ok(false)
    }
}

// Whether each number of the certificate surely takes no more than a line, by the power of half a line.
fn numbers_fit(
    alloc: Global,
    certificate: &Certificate,
    power: &Natural,
) -> Result<bool, AllocError>
    requires { power.now ≡ lines.line_power }
    ensures { IfOk result (λ b. IsTrue b → FitsLines certificate.now) }
{
    match certificate {
        Certificate::Optimal { x, y } => both_fit(alloc, x.as_slice(), y.as_slice(), power),
        Certificate::Infeasible { y } => all_fit(alloc, y.as_slice(), power),
        Certificate::Clash(_) => Ok(true),
        Certificate::Unbounded { x, r } => both_fit(alloc, x.as_slice(), r.as_slice(), power),
    }
}

/// Whether each number of the certificate fits its line: by its numerator and its denominator alone, of which each may
/// take half of it.
pub(crate) fn fits_lines(alloc: Global, certificate: &Certificate) -> Result<bool, AllocError>
    ensures { IfOk result (λ b. IsTrue b → FitsLines certificate.now) }
{
    let power = line_power(alloc)?;
    let fits = numbers_fit(alloc, certificate, &power);
    drop(power);
    fits
}
