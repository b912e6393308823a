// All reductions of a model.
ghost use Rattle.std.specs.Prelude.{◌≡◌, [], ◌∷◌, ◌++◌, Some, Ok, IfOk, IfErr, OnOk};
ghost use Rattle.spec_exact.specs.Narrow.{number_limit};
ghost use Rattle.spec_model.specs.Kept.{IsModel};
ghost use Rattle.spec_presolve.specs.declared.reduction.Choice.TheVariants.{Reduce};
ghost use Rattle.spec_presolve.specs.Choose.{chosen};
ghost use Rattle.spec_presolve.specs.Reduce as reduce;
ghost use Rattle.lp_presolve.specs.Kept.{kept};
ghost use Rattle.lp_presolve.specs.Tells.{LeadsTo, StopsAt};

use crate::choosing::{Choice, Reduction, choose};
use crate::shrinking::shrink;
use crate::step::{Steps, step_of};
use lp_frac::Stop;
use lp_model::Model;
use spec_presolve::Halt;
use std::alloc::Global;
use thiserror::Error;

/// The budget of a solve is spent. Callers put it beside a refusal.
#[derive(Clone, Copy, Debug, Error)]
#[error("the budget of pivots and flips is spent")]
pub(crate) struct Spent;

// Makes the reduction that was chosen for the model, and appends it, with what certificates need of the smaller model,
// to `steps`.
fn go_on(
    alloc: Global,
    model: &mut Model,
    steps: &mut Steps,
    reduction: Reduction,
) -> Result<(), Stop<Spent>>
    requires kept { IsModel model.old }
    requires chosen { chosen (Some number_limit) model.old ≡ Ok (Reduce reduction) }
    ensures after { OnOk result (reduce.after (Some number_limit) model.old reduction ≡ Ok model.new) }
    ensures steps { OnOk result (steps.new ≡ steps.old ++ kept reduction model.new ∷ []) }
    ensures err { IfErr result (StopsAt (reduce.after (Some number_limit) model.old reduction)) }
{
    shrink(model, &reduction)?;
    let step = step_of(alloc, model, reduction)?;
    steps.push(step)?;
    Ok(())
}

/// Makes the model smaller by at most `left` reductions, and appends what is kept of each to `steps`. Gives why no
/// other follows, which is `Done` too where `left` were made. After a refusal the model is of no more use.
pub(crate) fn reduce(
    alloc: Global,
    model: &mut Model,
    steps: &mut Steps,
    left: u32,
) -> Result<Halt, Stop<Spent>>
    requires { IsModel model.old }
    ensures ok { IfOk result (LeadsTo (reduce.reduced_within (Some number_limit) left model.old) model.new steps.old
        steps.new) }
    ensures err { IfErr result (StopsAt (reduce.reduced_within (Some number_limit) left model.old)) }
{
    for _ in 0..left {
        match choose(model)? {
            Choice::Halt(halt) => return Ok(halt),
            Choice::Reduce(reduction) => go_on(alloc, model, steps, reduction)?,
        }
    }
    Ok(Halt::Done)
}
