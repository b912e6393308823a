// The last model: the certificate with which the reductions ended, or that of a solve.
ghost use Rattle.std.specs.Prelude.{◌≡◌, IfOk};
ghost use Rattle.spec_model.specs.Kept.{IsUsual};
ghost use Rattle.spec_presolve.specs.Carry as carry;
ghost use Rattle.lp_presolve.specs.Tries.{LastTells};

use crate::carrying::alone_at;
use crate::reductions::Spent;
use lp_check::Certificate;
use lp_frac::{Stop, neg, one};
use lp_model::Model;
use lp_solve::{End, solve};
use spec_presolve::Halt;
use std::alloc::{AllocError, Global};

// The certificate that the model is infeasible, where the reductions ended because they found that; else none.
fn halted(alloc: Global, model: &Model, halt: Halt) -> Result<Option<Certificate>, AllocError>
    ensures { IfOk result (λ certificate. certificate ≡ carry.halted model.now halt) }
{
    let others = model.rows().saturating_sub(1);
    match halt {
        Halt::Done => Ok(None),
        Halt::Clash { column } => Ok(Some(Certificate::Clash(column))),
        Halt::Above { row } => {
            let y = alone_at(alloc, others, row, one())?;
            Ok(Some(Certificate::Infeasible { y }))
        }
        Halt::Below { row } => {
            let y = alone_at(alloc, others, row, neg(one()))?;
            Ok(Some(Certificate::Infeasible { y }))
        }
    }
}

// The certificate of a solve of the model within the budget, with the count of pivots. An overflow or a spent budget
// stops it.
fn solved(alloc: Global, model: &Model, budget: u64) -> Result<(Certificate, u64), Stop<Spent>>
    requires { IsUsual model.now }
    ensures { LastTells model.now budget None result }
{
    let (end, _) = solve(alloc, model, budget, None)?;
    match end {
        End::Ended {
            certificate,
            pivots,
            ..
        } => Ok((certificate, pivots)),
        End::Past(past) => Err(Stop::Past(past)),
        End::Spent => Err(Stop::Cause(Spent)),
    }
}

/// A certificate of the model at which the reductions ended: by the end itself where that shows that no point is
/// feasible, else by a solve. The count of pivots comes with it.
pub(crate) fn last_certificate(
    alloc: Global,
    model: &Model,
    halt: Halt,
    budget: u64,
) -> Result<(Certificate, u64), Stop<Spent>>
    requires { IsUsual model.now }
    ensures { LastTells model.now budget (carry.halted model.now halt) result }
{
    match halted(alloc, model, halt)? {
        Some(certificate) => Ok((certificate, 0)),
        None => solved(alloc, model, budget),
    }
}
