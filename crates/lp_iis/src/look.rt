// A look at some sides alone: whether a point meets them all.
ghost use Rattle.std.specs.Prelude.{◌≡◌, ◌++◌, ◌∷◌, All, IfOk, Some};
ghost use Rattle.spec_exact.specs.Narrow.{number_limit};
ghost use Rattle.spec_model.specs.Kept.{IsUsual, IsUsualModel};
ghost use Rattle.spec_iis.specs.Sides.{IsSide};
ghost use Rattle.spec_iis.specs.Only.{only};
ghost use Rattle.spec_iis.specs.Rule.{IsRead, IsClash};
ghost use Rattle.lp_iis.specs.Ways.{IsSeen};
ghost use Rattle.lp_iis.specs.declared.look.Look.TheVariants as looks;

use crate::alone::only;
use crate::few::used_among;
use crate::listed::is_listed;
use crate::lists::Sides;
use crate::trial::{Trial, try_model};
use lp_frac::Fracs;
use lp_model::Model;
use lp_solve::End;
use spec_iis::Side;
use std::alloc::{AllocError, Global};

/// What is seen of some sides.
#[derive(Drop)]
pub(crate) enum Look {
    /// No point meets these few of them together.
    Clash(Sides),
    /// This point meets them all.
    Point(Fracs),
    /// The solve of them gives up.
    Stopped(End),
}

// What a solve of `alone`, the model with the sides alone, shows of them: a few that no point meets together, a point
// that meets them all, or that it gives up. Memory may run out.
fn look_into(
    alloc: Global,
    model: &Model,
    budget: u64,
    sides: &Sides,
    alone: &Model,
) -> Result<Look, AllocError>
    requires alone { alone.now ≡ only model.now sides.now }
    requires usual { IsUsual alone.now }
    requires present { All (IsSide model.now) sides.now }
    ensures { IfOk result (IsSeen budget model.now sides.now) }
{
    match try_model(alloc, alone, budget)? {
        Trial::Infeasible(certificate) => {
            let few = used_among(alloc, model, sides, alone, &certificate);
            drop(certificate);
            Ok(Look::Clash(few?))
        }
        Trial::Point(point) => Ok(Look::Point(point)),
        Trial::Stopped(end) => Ok(Look::Stopped(end)),
    }
}

// A list of the first sides and, behind them, of `others`. Memory may run out.
fn joined(alloc: Global, first: &Sides, others: &[Side]) -> Result<Sides, AllocError>
    ensures { IfOk result (λ sides. sides ≡ first.now ++ others.now) }
{
    let mut sides = Sides::from_slice(alloc, first.as_slice())?;
    sides.extend(others)?;
    Ok(sides)
}

// What a solve of the model with the kept sides and `others` alone shows: a few that no point meets together, a point
// that meets all, or that it gives up. Memory may run out.
fn look_at_both(
    alloc: Global,
    model: &Model,
    budget: u64,
    kept: &Sides,
    others: &[Side],
) -> Result<Look, AllocError>
    requires model { IsUsualModel model.now }
    requires present { All (IsSide model.now) (kept.now ++ others.now) }
    requires read { All (IsRead (Some number_limit) model.now) (kept.now ++ others.now) }
    ensures { IfOk result (IsSeen budget model.now (kept.now ++ others.now)) }
{
    let sides = joined(alloc, kept, others)?;
    let alone = only(alloc, model, sides.as_slice())?;
    let look = look_into(alloc, model, budget, &sides, &alone);
    drop(alone);
    drop(sides);
    look
}

// The answer that the few sides of `clash`, which no point meets together, still are such. Memory may run out.
fn as_before(alloc: Global, clash: &Sides) -> Result<Look, AllocError>
    ensures { IfOk result (λ look. look ≡ looks.Clash clash.now) }
{
    Ok(Look::Clash(Sides::from_slice(alloc, clash.as_slice())?))
}

/// Tells whether a point meets the kept sides and those behind `side`. If `side` is one of the few of `clash`, which no
/// point meets together, it solves, and the solve may give up. Else these few are among the rest, and are the answer.
/// Memory may run out.
pub(crate) fn look_without(
    alloc: Global,
    model: &Model,
    budget: u64,
    clash: &Sides,
    kept: &Sides,
    side: Side,
    behind: &[Side],
) -> Result<Look, AllocError>
    requires model { IsUsualModel model.now }
    requires present { All (IsSide model.now) (kept.now ++ behind.now) }
    requires read { All (IsRead (Some number_limit) model.now) (kept.now ++ behind.now) }
    requires clash { IsClash model.now (kept.now ++ side ∷ behind.now) clash.now }
    ensures { IfOk result (IsSeen budget model.now (kept.now ++ behind.now)) }
{
    if is_listed(clash.as_slice(), side) {
        look_at_both(alloc, model, budget, kept, behind)
    } else {
        as_before(alloc, clash)
    }
}
