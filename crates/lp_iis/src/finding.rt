// The search: the sides that a certificate uses, one by one.
ghost use Rattle.std.specs.Prelude.{◌≡◌, ◌<◌, ◌+◌, ◌++◌, ◌∷◌, [], All, IfOk, OnOk, Some, length, drop as drop_front};
ghost use Rattle.spec_exact.specs.Narrow.{number_limit};
ghost use Rattle.spec_model.specs.Truth.{IsInfeasible};
ghost use Rattle.spec_model.specs.Kept.{IsUsualModel};
ghost use Rattle.spec_iis.specs.Sides.{IsSide};
ghost use Rattle.spec_iis.specs.Only.{only};
ghost use Rattle.spec_iis.specs.Rule.{IsRead, IsFiltered};
ghost use Rattle.spec_iis.specs.Found.{MayFind};
ghost use Rattle.lp_iis.specs.Trials.{IsTried};
ghost use Rattle.lp_iis.specs.Ways.{begin_by, IsBegun, IsLeft, MayEnd};

use crate::alone::only;
use crate::certificate::used;
use crate::lists::{Iis, Points, Sides};
use crate::look::{Look, look_without};
use crate::trial::{Trial, try_model};
use lp_check::{Certificate, Known};
use lp_frac::Fracs;
use lp_model::Model;
use lp_solve::{End, solve};
use spec_iis::Side;
use std::alloc::{AllocError, Global};

/// Which sides are left of some.
#[derive(Drop)]
pub(crate) enum Left {
    /// These sides, with a point for each that meets the others.
    Kept(Sides, Points),
    /// The solve of some of them gives up.
    Stopped(End),
}

/// What a search begins with.
#[derive(Drop)]
pub(crate) enum First {
    /// No point is feasible, by this certificate.
    Infeasible(Certificate),
    /// The model's solve ends otherwise.
    Else(End),
}

// The sides of the list behind place `i`.
fn behind(sides: &Sides, i: usize) -> &[Side]
    requires { i < length sides.now }
    ensures { result.now ≡ drop_front (i + 1) sides.now }
{
    &sides.as_slice()[i + 1..]
}

// Adds the side to the kept ones, and to the points the one that meets all other sides, if there is memory.
fn keep(side: Side, point: Fracs, kept: &mut Sides, points: &mut Points) -> Result<(), AllocError>
    ensures kept { OnOk result (kept.new ≡ kept.old ++ side ∷ []) }
    ensures points { OnOk result (points.new ≡ points.old ++ point ∷ []) }
{
    kept.push(side)?;
    points.push(point)?;
    Ok(())
}

// Leaves out each side, in order, without which the later and the kept sides are infeasible together, and else keeps
// it. Where a solve gives up, that is what it tells. Memory may run out.
fn filter(alloc: Global, model: &Model, budget: u64, sides: &Sides) -> Result<Left, AllocError>
    requires model { IsUsualModel model.now }
    requires present { All (IsSide model.now) sides.now }
    requires infeasible { IsInfeasible (only model.now sides.now) }
    requires read { All (IsRead (Some number_limit) model.now) sides.now }
    ensures { IfOk result (IsLeft budget model.now sides.now) }
{
    let mut kept = Sides::new(alloc);
    let mut points = Points::new(alloc);
    let mut clash = Sides::from_slice(alloc, sides.as_slice())?;
    for i in 0..sides.len() {
        let side = sides.at(i);
        match look_without(alloc, model, budget, &clash, &kept, side, behind(sides, i))? {
            Look::Clash(few) => clash = few,
            Look::Point(point) => keep(side, point, &mut kept, &mut points)?,
            Look::Stopped(end) => return Ok(Left::Stopped(end)),
        }
    }
    Ok(Left::Kept(kept, points))
}

// What a solve of the model with these sides alone says: a certificate that no point meets them all, a point that does,
// or that it gives up. Memory may run out.
fn try_alone(alloc: Global, model: &Model, budget: u64, sides: &[Side]) -> Result<Trial, AllocError>
    requires model { IsUsualModel model.now }
    requires read { All (IsRead (Some number_limit) model.now) sides.now }
    ensures { IfOk result (IsTried budget (only model.now sides.now)) }
{
    let alone = only(alloc, model, sides)?;
    let trial = try_model(alloc, &alone, budget);
    drop(alone);
    trial
}

// The end of the search: the kept sides with their points and a certificate, which a last solve of the model with them
// alone gives; or that this solve gives up. Memory may run out.
fn certified(
    alloc: Global,
    model: &Model,
    budget: u64,
    sides: Sides,
    points: Points,
) -> Result<Iis, AllocError>
    requires model { IsUsualModel model.now }
    requires read { All (IsRead (Some number_limit) model.now) sides }
    requires filtered { IsFiltered model.now sides [] points }
    ensures { IfOk result (MayEnd budget model.now sides) }
{
    match try_alone(alloc, model, budget, sides.as_slice())? {
        Trial::Infeasible(certificate) => Ok(Iis::Found {
            sides,
            certificate,
            points,
        }),
        Trial::Stopped(end) => Ok(Iis::Stopped(end)),
        Trial::Point(_) => Ok(Iis::Stopped(End::Spent)),
    }
}

// Searches for an irreducible infeasible subset among the sides that the certificate of the model's infeasibility uses.
// A solve of some of them may give up. Memory may run out.
fn reduced(
    alloc: Global,
    model: &Model,
    budget: u64,
    certificate: &Certificate,
) -> Result<Iis, AllocError>
    requires model { IsUsualModel model.now }
    requires begun { IsBegun budget model.now certificate.now }
    ensures { IfOk result (MayFind model.now budget) }
{
    let sides = used(alloc, model, certificate)?;
    let left = filter(alloc, model, budget, &sides)?;
    drop(sides);
    match left {
        Left::Kept(kept, points) => certified(alloc, model, budget, kept, points),
        Left::Stopped(end) => Ok(Iis::Stopped(end)),
    }
}

// What the search begins with, by the end of the model's solve: its certificate that no point is feasible, or any other
// end.
fn begin(end: End) -> First
    ensures { result ≡ begin_by end }
{
    match end {
        End::Ended {
            answer,
            certificate,
            basis,
            pivots,
        } => match answer {
            Known::Infeasible => {
                drop(basis);
                First::Infeasible(certificate)
            }
            Known::Optimal(v) => First::Else(End::Ended {
                answer: Known::Optimal(v),
                certificate,
                basis,
                pivots,
            }),
            Known::Unbounded => First::Else(End::Ended {
                answer: Known::Unbounded,
                certificate,
                basis,
                pivots,
            }),
        },
        End::Past(past) => First::Else(End::Past(past)),
        End::Spent => First::Else(End::Spent),
    }
}

/// An irreducible infeasible subset of the model's sides, where the model's solve ends as infeasible; or the end of a
/// later solve, of some sides alone, that gives up. Else the end of the model's solve. Each solve has the whole budget
/// of pivots and flips. Memory may run out.
pub fn find(alloc: Global, model: &Model, budget: u64) -> Result<Iis, AllocError>
    requires { IsUsualModel model.now }
    ensures { IfOk result (MayFind model.now budget) }
{
    let (end, _) = solve(alloc, model, budget, None)?;
    match begin(end) {
        First::Infeasible(certificate) => {
            let found = reduced(alloc, model, budget, &certificate);
            drop(certificate);
            found
        }
        First::Else(end) => Ok(Iis::Other(end)),
    }
}
