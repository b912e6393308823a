// What multipliers come to: their parts in the columns, each by one walk over the column's entries, and the reduced costs.
ghost use Rattle.std.specs.Prelude.{◌≡◌, ◌<◌, ℕ, Ok, None, IfOk, length};
ghost use Rattle.spec_exact.specs.Fraction.{◌*ℚ◌, ◌-ℚ◌};
ghost use Rattle.spec_exact.specs.Sums.{sum_below};
ghost use Rattle.spec_model.specs.Kept.{AreEntries};
ghost use Rattle.spec_model.specs.Model.{width, height, cost, entry_of, part as part_of};
ghost use Rattle.spec_check.specs.Checks.{signed as signed_by, priced as priced_by, reduced as reduced_by};
ghost use Rattle.spec_check.specs.Run as run;
ghost use Rattle.lp_ratio.specs.Multiple.{multiple};

use crate::multipliers::signed;
use crate::wide::certificate::Ratios;
use lp_base::Items;
use lp_frac::Frac;
use lp_model::Model;
use lp_natural::Natural;
use lp_ratio::{Ratio, common_denominator, multiples};
use std::alloc::{AllocError, Global};

// The sum of a column's coefficients, each times the number that `y` has for its row.
fn weighed_sum(alloc: Global, entries: &[(u32, Frac)], y: &[Ratio]) -> Result<Ratio, AllocError>
    requires { AreEntries (length y.now) entries.now }
    ensures { IfOk result (λ s. s ≡ sum_below (length y.now) (λ i. part_of y.now i *ℚ entry_of entries.now i)) }
{
    let mut sum = Ratio::zero(alloc)?;
    for entry in entries {
        sum.add_product(alloc, entry.1, &y[entry.0 as usize])?;
    }
    Ok(sum)
}

/// The multipliers' part in column `j`: the sum of its coefficients times the multipliers of their rows.
#[tactic(auto, using(crate::proofs::Scaled::priced_is))]
pub(crate) fn priced(alloc: Global, model: &Model, y: &[Ratio], j: u32) -> Result<Ratio, AllocError>
    requires inside { j < width model.now }
    requires multipliers { length y.now ≡ height model.now }
    ensures value { IfOk result (λ p. p ≡ priced_by model.now y.now j) }
    ensures run { IfOk result (λ p. run.priced_run None model.now y.now j ≡ Ok p) }
{
    let sum = weighed_sum(alloc, model.entries(j), y)?;
    Ok(sum)
}

// The reduced cost of column `j`: its cost, negated for `max`, less the multipliers' part in it. `numbers` are the
// multipliers, each multiplied by `times`; the result is not.
fn reduced_over(
    alloc: Global,
    model: &Model,
    numbers: &[Ratio],
    times: &Natural,
    j: u32,
) -> Result<Ratio, AllocError>
    requires inside { j < width model.now }
    requires multipliers { length numbers.now ≡ height model.now }
    requires positive { 0 < times.now }
    ensures { IfOk result (λ d. multiple times.now d ≡
        multiple times.now (signed_by model.now.sense (cost model.now j)) -ℚ priced_by model.now numbers.now j) }
{
    let cost = Ratio::new(alloc, signed(model.sense(), model.col(j).cost))?;
    let own = cost.multiple(alloc, times)?;
    let price = priced(alloc, model, numbers, j)?;
    let rest = own.plus(alloc, &price.negated())?;
    rest.divided(alloc, times)
}

// The reduced costs of all columns: each cost, negated for `max`, less the multipliers' part in the column. `numbers`
// are the multipliers, each multiplied by `times`; the results are not.
fn all_reduced(
    alloc: Global,
    model: &Model,
    numbers: &[Ratio],
    times: &Natural,
) -> Result<Ratios, AllocError>
    requires multipliers { length numbers.now ≡ height model.now }
    requires positive { 0 < times.now }
    ensures len { IfOk result (λ r. length r ≡ width model.now) }
    ensures value { IfOk result (λ r. (j : ℕ) → j < width model.now → multiple times.now (part_of r j) ≡
        multiple times.now (signed_by model.now.sense (cost model.now j)) -ℚ priced_by model.now numbers.now j) }
{
    let mut out: Vec<Ratio> = Vec::with_capacity(alloc, model.cols() as usize)?;
    for j in 0..model.cols() {
        out.push(reduced_over(alloc, model, numbers, times, j)?)?;
    }
    Ok(Items::from_vec(out))
}

/// The reduced costs of all columns, by one walk over the entries of the model: each cost, negated for `max`, less the
/// multipliers' part.
pub fn reduced_costs(alloc: Global, model: &Model, y: &Ratios) -> Result<Ratios, AllocError>
    requires { length y.now ≡ height model.now }
    ensures len { IfOk result (λ r. length r ≡ width model.now) }
    ensures value { IfOk result (λ r. (j : ℕ) → j < width model.now → part_of r j ≡ reduced_by model.now y.now j) }
{
    let times = common_denominator(alloc, y.as_slice())?;
    let numbers = multiples(alloc, y.as_slice(), &times)?;
    let reduced = all_reduced(alloc, model, &numbers, &times)?;
    Ok(reduced)
}
