// What a point or a ray comes to: the sums of all rows, by one walk over the entries, and the sum of the costs.
//
// The numbers are taken as many times as their common denominator first, so that what is added up is whole but for the
// model's own denominators.
ghost use Rattle.std.specs.Prelude.{◌≡◌, ◌<◌, ℕ, IfOk, OnOk, length};
ghost use Rattle.spec_exact.specs.Fraction.{0ℚ, ◌+ℚ◌, ◌*ℚ◌};
ghost use Rattle.spec_model.specs.Kept.{AreEntries};
ghost use Rattle.spec_model.specs.Model.{width, height, entry_of, activity, cost_of, part as part_of};
ghost use Rattle.lp_ratio.specs.Multiple.{multiple};
ghost use Rattle.lp_check.specs.Sums.{AreSums};

use crate::wide::certificate::Ratios;
use lp_base::Items;
use lp_frac::Frac;
use lp_model::Model;
use lp_natural::Natural;
use lp_ratio::{Ratio, common_denominator, multiples};
use std::alloc::{AllocError, Global};

/// What a point or a ray comes to: the sum of each row, and the sum of the costs.
pub struct Evaluation {
    pub sums: Ratios,
    pub cost: Ratio,
}

impl Drop for Evaluation {
    // Drops the sums and the cost, and gives their memory back.
    fn drop(self) {
        let Evaluation { sums, cost } = self;
        drop(sums);
        drop(cost);
    }
}

// A list of `count` zeros.
fn zeros(alloc: Global, count: u32) -> Result<Vec<Ratio>, AllocError>
    ensures len { IfOk result (λ r. length r.items ≡ count) }
    ensures value { IfOk result (λ r. (i : ℕ) → i < count → part_of r.items i ≡ 0ℚ) }
{
    let mut zeros: Vec<Ratio> = Vec::with_capacity(alloc, count as usize)?;
    for i in 0..count {
        zeros.push(Ratio::zero(alloc)?)?;
    }
    Ok(zeros)
}

// Adds each coefficient of a column, times the column's number, to the sum of its row.
fn add_column(
    alloc: Global,
    entries: &[(u32, Frac)],
    number: &Ratio,
    sums: &mut Vec<Ratio>,
) -> Result<(), AllocError>
    requires { AreEntries (length sums.old.items) entries.now }
    ensures len { OnOk result (length sums.new.items ≡ length sums.old.items) }
    ensures sums { OnOk result ((i : ℕ) → i < length sums.old.items →
        part_of sums.new.items i ≡ part_of sums.old.items i +ℚ entry_of entries.now i *ℚ number.now) }
{
    for entry in entries {
        sums[entry.0 as usize].add_product(alloc, entry.1, number)?;
    }
    Ok(())
}

// The sum of each row: its coefficients times the numbers of their columns, added up.
fn sums_of(alloc: Global, model: &Model, numbers: &[Ratio]) -> Result<Vec<Ratio>, AllocError>
    requires { length numbers.now ≡ width model.now }
    ensures { IfOk result (λ r. AreSums model.now numbers.now r.items) }
{
    let mut sums = zeros(alloc, model.rows())?;
    for j in 0..model.cols() {
        add_column(alloc, model.entries(j), &numbers[j as usize], &mut sums)?;
    }
    Ok(sums)
}

// The sum of the costs times the numbers of their columns, without the offset.
fn cost_sum(alloc: Global, model: &Model, numbers: &[Ratio]) -> Result<Ratio, AllocError>
    requires { length numbers.now ≡ width model.now }
    ensures { IfOk result (λ r. r ≡ cost_of model.now numbers.now) }
{
    let mut sum = Ratio::zero(alloc)?;
    for j in 0..model.cols() {
        sum.add_product(alloc, model.col(j).cost, &numbers[j as usize])?;
    }
    Ok(sum)
}

// Each number of a list divided by `by`, in their order.
fn all_divided(alloc: Global, list: &[Ratio], by: &Natural) -> Result<Ratios, AllocError>
    requires { 0 < by.now }
    ensures len { IfOk result (λ r. length r ≡ length list.now) }
    ensures value { IfOk result (λ r. (i : ℕ) → i < length list.now →
        multiple by.now (part_of r i) ≡ part_of list.now i) }
{
    let mut out: Vec<Ratio> = Vec::with_capacity(alloc, list.len())?;
    for i in 0..list.len() {
        out.push(list[i].divided(alloc, by)?)?;
    }
    Ok(Items::from_vec(out))
}

// The sum of each row, its coefficients times the numbers of their columns, divided by `by`.
fn divided_sums(
    alloc: Global,
    model: &Model,
    numbers: &[Ratio],
    by: &Natural,
) -> Result<Ratios, AllocError>
    requires numbers { length numbers.now ≡ width model.now }
    requires positive { 0 < by.now }
    ensures len { IfOk result (λ r. length r ≡ height model.now) }
    ensures value { IfOk result (λ r. (i : ℕ) → i < height model.now →
        multiple by.now (part_of r i) ≡ activity model.now numbers.now i) }
{
    let sums = sums_of(alloc, model, numbers)?;
    all_divided(alloc, &sums, by)
}

// The sum of the costs times the numbers of their columns, divided by `by`.
fn divided_cost(
    alloc: Global,
    model: &Model,
    numbers: &[Ratio],
    by: &Natural,
) -> Result<Ratio, AllocError>
    requires numbers { length numbers.now ≡ width model.now }
    requires positive { 0 < by.now }
    ensures { IfOk result (λ c. multiple by.now c ≡ cost_of model.now numbers.now) }
{
    let cost = cost_sum(alloc, model, numbers)?;
    cost.divided(alloc, by)
}

/// The sums of the rows and the cost at a point, which has a number for each column, by one walk over the entries.
pub fn evaluated(alloc: Global, model: &Model, z: &Ratios) -> Result<Evaluation, AllocError>
    requires { length z.now ≡ width model.now }
    ensures sums { IfOk result (λ e. AreSums model.now z.now e.sums) }
    ensures cost { IfOk result (λ e. e.cost ≡ cost_of model.now z.now) }
{
    let times = common_denominator(alloc, z.as_slice())?;
    let numbers = multiples(alloc, z.as_slice(), &times)?;
    let sums = divided_sums(alloc, model, &numbers, &times)?;
    let cost = divided_cost(alloc, model, &numbers, &times)?;
    Ok(Evaluation { sums, cost })
}
