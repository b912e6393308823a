// A certificate carried back over reductions.
ghost use Rattle.std.specs.Prelude.{◌≡◌, ◌<◌, ◌≤◌, ◌+◌, ◌^◌, List, length, Some, IfOk, OnOk};
ghost use Rattle.std.specs.List.{insert};
ghost use Rattle.spec_exact.specs.Run.{quotient_run};
ghost use Rattle.spec_exact.specs.Narrow.{number_limit};
ghost use Rattle.spec_model.specs.Model.{Model, entry_of};
ghost use Rattle.spec_model.specs.Model as models;
ghost use Rattle.spec_presolve.specs.Choose.{ExactReduction};
ghost use Rattle.spec_presolve.specs.Carry as carry;
ghost use Rattle.lp_presolve.specs.Kept.{kept, all_kept};
ghost use Rattle.lp_presolve.specs.Tells.{Tells};
ghost use Rattle.lp_presolve.specs.Sums.{reduced_by, priced_by, apart_by, clash_by, over_step};
ghost use Rattle.lp_presolve.specs.Clash.{clash_of};

use crate::choosing::Reduction;
use crate::reductions::Spent;
use crate::step::Step;
use lp_check::{Certificate, signed};
use lp_frac::{
    Frac, Fracs, Past, Stop, div, is_negative, is_positive, is_zero, less_product, neg, one,
    plus_product, within, zero, zeros,
};
use std::alloc::{AllocError, Global};

// The number of the list at `i`, and 0 past the end.
fn part(list: &Fracs, i: u32) -> Frac
    ensures { result ≡ models.part list.now i }
{
    let i = i as usize;
    if i < list.len() { list.at(i) } else { zero() }
}

// The value of the entry in row `i`, 0 where there is none.
fn entry(entries: &[(u32, Frac)], i: u32) -> Frac
    ensures { result ≡ entry_of entries.now i }
{
    for e in entries {
        if e.0 == i {
            return e.1;
        }
    }
    zero()
}

// Inserts `v` in the list at `place`, or at the end of a shorter list.
fn put(list: &mut Fracs, place: u32, v: Frac) -> Result<(), AllocError>
    ensures { OnOk result (list.new ≡ insert list.old place v) }
{
    let place = place as usize;
    if place < list.len() {
        list.insert(place, v)
    } else {
        list.push(v)
    }
}

// The reduced cost of the step's column by the multipliers of the step's rows. The cost is negated where the objective
// is to be made greatest. Refused where an operation is past 127 bits.
fn reduced(step: &Step, y: &Fracs) -> Result<Frac, Past>
    ensures { result ≡ reduced_by (Some number_limit) step.now y.now }
{
    let mut d = signed(step.sense, step.cost);
    for i in 0..step.rows {
        d = less_product(part(y, i), entry(step.entries.as_slice(), i), d)?;
    }
    Ok(d)
}

// The sum of the multipliers times the entries of the step's column. Refused where an operation is past 127 bits.
fn priced(step: &Step, y: &Fracs) -> Result<Frac, Past>
    ensures { result ≡ priced_by (Some number_limit) step.now y.now }
{
    let mut sum = zero();
    for i in 0..step.rows {
        sum = plus_product(part(y, i), entry(step.entries.as_slice(), i), sum)?;
    }
    Ok(sum)
}

// `d / a`, and 0 where `a` is 0. Refused where the quotient is past 127 bits.
fn over_entry(d: Frac, a: Frac) -> Result<Frac, Past>
    ensures { result ≡ quotient_run (Some number_limit) d a }
{
    within(d);
    if is_zero(a) { Ok(zero()) } else { div(d, a) }
}

// Whether the row gave the bound that a reduced cost `d` needs: the lower one where it is positive, the upper one where
// it is negative. No for 0, which needs none.
fn is_given(lower: Option<Frac>, upper: Option<Frac>, d: Frac) -> bool
    ensures { result ≡ carry.is_given lower upper d }
{
    if is_positive(d) {
        lower.is_some()
    } else if is_negative(d) {
        upper.is_some()
    } else {
        false
    }
}

// The multiplier that the row takes over from the column: `d / a` where the row gave the bound, as `t` says, else 0.
// Refused where the quotient is past 127 bits.
fn taken_over(t: bool, d: Frac, a: Frac) -> Result<Frac, Past>
    ensures { result ≡ carry.taken_over (Some number_limit) t d a }
{
    if t { over_entry(d, a) } else { Ok(zero()) }
}

// A list with `v` at `i`, or last where `i` is past `n`, and `n` other numbers, which are 0.
pub(crate) fn alone_at(alloc: Global, n: u32, i: u32, v: Frac) -> Result<Fracs, AllocError>
    ensures { IfOk result (λ list. list ≡ carry.alone_at n i v) }
{
    let mut list = zeros(alloc, n as usize)?;
    put(&mut list, i, v)?;
    Ok(list)
}

// The multiplier of a row with one entry `a` that gave a bound which clashes with the column's other one: `1/a` if it
// gave the lower one, else `-1/a`. None if it gave no bound. Refused where the quotient is past 127 bits.
fn apart(a: Frac, lower: Option<Frac>, upper: Option<Frac>) -> Result<Option<Frac>, Past>
    ensures { result ≡ apart_by (Some number_limit) a lower upper }
{
    match (lower, upper) {
        (Some(_), _) => Ok(Some(over_entry(one(), a)?)),
        (None, Some(_)) => Ok(Some(over_entry(neg(one()), a)?)),
        (None, None) => Ok(None),
    }
}

// Carries a certificate back over a row without entries: its multiplier is 0. A clash or a ray stays.
fn over_empty(row: u32, certificate: Certificate) -> Result<Certificate, AllocError>
    ensures { IfOk result (λ c. c ≡ carry.over_empty row certificate) }
{
    match certificate {
        Certificate::Optimal { x, mut y } => {
            put(&mut y, row, zero())?;
            Ok(Certificate::Optimal { x, y })
        }
        Certificate::Infeasible { mut y } => {
            put(&mut y, row, zero())?;
            Ok(Certificate::Infeasible { y })
        }
        other => Ok(other),
    }
}

// Carries a certificate back over a fixed column, which is at `value`. The column comes in with that value, and with 0
// in a ray. A clash gets its column's number before the fixed one was removed. Multipliers stay.
fn over_fixed(column: u32, value: Frac, certificate: Certificate) -> Result<Certificate, AllocError>
    requires { clash_of certificate + 1 < 2 ^ 32 }
    ensures { IfOk result (λ c. c ≡ carry.over_fixed column value certificate) }
{
    match certificate {
        Certificate::Optimal { mut x, y } => {
            put(&mut x, column, value)?;
            Ok(Certificate::Optimal { x, y })
        }
        Certificate::Unbounded { mut x, mut r } => {
            put(&mut x, column, value)?;
            put(&mut r, column, zero())?;
            Ok(Certificate::Unbounded { x, r })
        }
        Certificate::Clash(k) => Ok(Certificate::Clash(if k < column { k } else { k + 1 })),
        Certificate::Infeasible { y } => Ok(Certificate::Infeasible { y }),
    }
}

// Carries a clash of column `k` back over a row with one entry `a`, beside `rows` others: where the row gave a bound of
// this column, its multiplier shows that no point is feasible. Else the clash stays.
fn over_clash(
    alloc: Global,
    rows: u32,
    row: u32,
    column: u32,
    a: Frac,
    lower: Option<Frac>,
    upper: Option<Frac>,
    k: u32,
) -> Result<Certificate, Stop<Spent>>
    ensures { Tells (clash_by (Some number_limit) rows row column a lower upper k) result }
{
    if k == column {
        match apart(a, lower, upper)? {
            Some(v) => Ok(Certificate::Infeasible {
                y: alone_at(alloc, rows, row, v)?,
            }),
            None => Ok(Certificate::Clash(k)),
        }
    } else {
        Ok(Certificate::Clash(k))
    }
}

// Carries a certificate back over a row with one entry `a`. The row's multiplier takes over the column's reduced cost,
// or of Farkas multipliers the negative of their part in the column, divided by `a`, if the row gave the bound that the
// sign asks for; else it is 0. A clash of the column may become multipliers. Other clashes and rays stay.
fn over_single(
    alloc: Global,
    step: &Step,
    row: u32,
    column: u32,
    a: Frac,
    lower: Option<Frac>,
    upper: Option<Frac>,
    certificate: Certificate,
) -> Result<Certificate, Stop<Spent>>
    ensures { Tells (over_step (Some number_limit) step.now row column a lower upper certificate) result }
{
    match certificate {
        Certificate::Optimal { x, mut y } => {
            let d = reduced(step, &y)?;
            let v = taken_over(is_given(lower, upper, d), d, a)?;
            put(&mut y, row, v)?;
            Ok(Certificate::Optimal { x, y })
        }
        Certificate::Infeasible { mut y } => {
            let g = priced(step, &y)?;
            let v = taken_over(is_given(upper, lower, g), neg(g), a)?;
            put(&mut y, row, v)?;
            Ok(Certificate::Infeasible { y })
        }
        Certificate::Clash(k) => over_clash(alloc, step.rows, row, column, a, lower, upper, k),
        Certificate::Unbounded { x, r } => Ok(Certificate::Unbounded { x, r }),
    }
}

// Carries a certificate of the smaller model back over one reduction, to the model before it.
fn over(alloc: Global, step: &Step, certificate: Certificate) -> Result<Certificate, Stop<Spent>>
    requires { clash_of certificate + 1 < 2 ^ 32 }
    ensures clash { IfOk result (λ c. clash_of c ≤ clash_of certificate + 1) }
    ensures carried { (r : ExactReduction) (m : Model) → step.now ≡ kept r m →
        Tells (carry.carried_over (Some number_limit) (r, m) certificate) result }
{
    match &step.reduction {
        Reduction::Empty { row } => Ok(over_empty(*row, certificate)?),
        Reduction::Single {
            row,
            column,
            value,
            lower,
            upper,
        } => over_single(
            alloc,
            step,
            *row,
            *column,
            *value,
            *lower,
            *upper,
            certificate,
        ),
        Reduction::Fixed { column, value } => Ok(over_fixed(*column, *value, certificate)?),
    }
}

/// Carries a certificate of the last model back over all reductions, from the last one to the first.
pub(crate) fn carry(
    alloc: Global,
    steps: &[Step],
    certificate: Certificate,
) -> Result<Certificate, Stop<Spent>>
    requires { clash_of certificate + length steps.now < 2 ^ 32 }
    ensures clash { IfOk result (λ c. clash_of c ≤ clash_of certificate + length steps.now) }
    ensures carried { (reductions : List (ExactReduction × Model)) → steps.now ≡ all_kept reductions →
        Tells (carry.carried (Some number_limit) reductions certificate) result }
{
    match steps {
        [] => Ok(certificate),
        [first, rest @ ..] => over(alloc, first, carry(alloc, rest, certificate)?),
    }
}
