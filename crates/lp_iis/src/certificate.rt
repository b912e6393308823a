// The sides that a certificate uses.
ghost use Rattle.std.specs.Prelude.{◌≡◌, ◌<◌, ◌++◌, IfOk, OnOk, Ok, Some, length, true, false};
ghost use Rattle.spec_exact.specs.Narrow.{number_limit};
ghost use Rattle.spec_model.specs.Model.{width, height, part as part_of};
ghost use Rattle.spec_check.specs.declared.certificate.Known.TheVariants as known;
ghost use Rattle.spec_check.specs.Certificate.{IsFor};
ghost use Rattle.spec_check.specs.Checks as checks;
ghost use Rattle.spec_check.specs.Run as run;
ghost use Rattle.spec_check.specs.declared.certificate.Certificate.TheVariants as certificates;
ghost use Rattle.spec_iis.specs.Rule as rule;

use crate::lists::Sides;
use lp_check::{Certificate, part, priced};
use lp_frac::{Fracs, is_negative, is_positive};
use lp_model::Model;
use spec_iis::Side;
use std::alloc::{AllocError, Global};

// Adds the side to the list, if `used`. Memory may run out.
pub(crate) fn push_if(used: bool, side: Side, to: &mut Sides) -> Result<(), AllocError>
    ensures { OnOk result (to.new ≡ to.old ++ rule.side_if used side) }
{
    if used {
        to.push(side)?;
    }
    Ok(())
}

// Adds the lower side of the row or column `at` to the list, if that is used, and then the upper one, if that is.
// Memory may run out.
fn push_sides(
    row: bool,
    at: u32,
    lower: bool,
    upper: bool,
    to: &mut Sides,
) -> Result<(), AllocError>
    ensures { OnOk result (to.new ≡ to.old
        ++ (rule.side_if lower (record { row = row; at = at; upper = false })
        ++ rule.side_if upper (record { row = row; at = at; upper = true }))) }
{
    push_if(
        lower,
        Side {
            row,
            at,
            upper: false,
        },
        to,
    )?;
    push_if(
        upper,
        Side {
            row,
            at,
            upper: true,
        },
        to,
    )
}

// Adds the sides of all rows that the multipliers use: the lower one where a multiplier is above 0, the upper one where
// it is below. Memory may run out.
fn push_rows(model: &Model, y: &Fracs, to: &mut Sides) -> Result<(), AllocError>
    requires { length y.now ≡ height model.now }
    ensures { OnOk result (to.new ≡ to.old ++ rule.gathered (λ i. rule.row_sides i (part_of y.now i)) (height model.now)) }
{
    for i in 0..model.rows() {
        let multiplier = part(y, i);
        push_sides(
            true,
            i,
            is_positive(multiplier),
            is_negative(multiplier),
            to,
        )?;
    }
    Ok(())
}

// Adds the side of column `j` that the multipliers use: the lower bound where the sum of multipliers times its entries
// is below 0, the upper bound where it is above 0, and none where it is 0. Memory may run out.
fn push_column(model: &Model, y: &Fracs, j: u32, to: &mut Sides) -> Result<(), AllocError>
    requires inside { j < width model.now }
    requires multipliers { length y.now ≡ height model.now }
    requires read { run.priced_run (Some number_limit) model.now y.now j ≡ Ok (checks.priced model.now y.now j) }
    ensures { OnOk result (to.new ≡ to.old ++ rule.column_sides j (checks.priced model.now y.now j)) }
{
    match priced(model, y, j) {
        Ok(part) => push_sides(false, j, is_negative(part), is_positive(part), to),
        Err(_) => Ok(()),
    }
}

// Adds the side of each column that the multipliers use: the lower bound where the sum of multipliers times its entries
// is below 0, the upper bound where it is above 0. Memory may run out.
fn push_columns(model: &Model, y: &Fracs, to: &mut Sides) -> Result<(), AllocError>
    requires multipliers { length y.now ≡ height model.now }
    requires accepted { run.check_run (Some number_limit) model.now (certificates.Infeasible y.now) ≡ Ok
        known.Infeasible }
    ensures { OnOk result
        (to.new ≡ to.old ++ rule.gathered (λ j. rule.column_sides j (checks.priced model.now y.now j)) (width model.now)) }
{
    for j in 0..model.cols() {
        push_column(model, y, j, to)?;
    }
    Ok(())
}

/// The sides that an accepted certificate of infeasibility uses, those of rows first; of a clash both bounds of its
/// column. Memory may run out.
#[tactic(auto, unfolding(spec_iis::specs::Rule::used))]
pub(crate) fn used(alloc: Global, model: &Model, cert: &Certificate) -> Result<Sides, AllocError>
    requires fits { IsFor model.now cert.now }
    requires accepted { run.check_run (Some number_limit) model.now cert.now ≡ Ok known.Infeasible }
    ensures { IfOk result (λ sides. sides ≡ rule.used model.now cert.now) }
{
    let mut sides = Sides::new(alloc);
    match cert {
        Certificate::Infeasible { y } => {
            push_rows(model, y, &mut sides)?;
            push_columns(model, y, &mut sides)?;
        }
        Certificate::Clash(j) => push_sides(false, *j, true, true, &mut sides)?,
        Certificate::Optimal { .. } | Certificate::Unbounded { .. } => {}
    }
    Ok(sides)
}
