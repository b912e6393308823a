// Which of some sides a certificate uses, where the certificate is of the model with these sides alone.
ghost use Rattle.std.specs.Prelude.{◌≡◌, ◌<◌, ◌++◌, true, All, IfOk, OnOk, length};
ghost use Rattle.std.specs.List.{filter};
ghost use Rattle.spec_iis.specs.Sides.{IsSide, is_listed};
ghost use Rattle.spec_iis.specs.Only as only;
ghost use Rattle.spec_iis.specs.Rule as rule;
ghost use Rattle.spec_iis.specs.Found.{ShowsInfeasible};
ghost use Rattle.lp_iis.specs.Reading.{placed};

use crate::certificate::{push_if, used};
use crate::listed::is_listed;
use crate::lists::Sides;
use crate::places::places;
use lp_check::Certificate;
use lp_model::Model;
use spec_iis::Side;
use std::alloc::{AllocError, Global};

// The number that row or column `at` has in the model with the sides alone. A row has its place among the rows that
// stay, or its own number if it does not stay; a column keeps its number.
fn place_of(places: &[Option<u32>], row: bool, at: u32) -> u32
    requires { row ≡ true → at < length places.now }
    ensures { result ≡ (placed places.now (record { row = row; at = at; upper = true })).at }
{
    if row {
        places[at as usize].unwrap_or(at)
    } else {
        at
    }
}

// The side as one of the model with the sides alone, in which the rows have these places.
fn moved(places: &[Option<u32>], side: Side) -> Side
    requires { side.row ≡ true → side.at < length places.now }
    ensures { result ≡ placed places.now side }
{
    Side {
        row: side.row,
        at: place_of(places, side.row, side.at),
        upper: side.upper,
    }
}

// Adds the side to `few`, if it is one of the used sides, whose rows are numbered by these places. Memory may run out.
fn push_used(
    used: &Sides,
    places: &[Option<u32>],
    side: Side,
    few: &mut Sides,
) -> Result<(), AllocError>
    requires { side.row ≡ true → side.at < length places.now }
    ensures { OnOk result (few.new ≡ few.old ++ rule.side_if (is_listed used.now (placed places.now side)) side) }
{
    let is_used = is_listed(used.as_slice(), moved(places, side));
    push_if(is_used, side, few)
}

// The sides of the list that are among the used ones, where `places` gives each row its number among the rows that
// stay. Memory may run out.
fn used_of(
    alloc: Global,
    used: &Sides,
    places: &[Option<u32>],
    sides: &Sides,
) -> Result<Sides, AllocError>
    requires inside { All (λ s. s.row ≡ true → s.at < length places.now) sides.now }
    requires same { All (λ s. placed places.now s ≡ only.renumbered sides.now s) sides.now }
    ensures { IfOk result
        (λ few. few ≡ filter (λ s. is_listed used.now (only.renumbered sides.now s)) sides.now) }
{
    let mut few = Sides::new(alloc);
    for i in 0..sides.len() {
        let side = sides.at(i);
        push_used(used, places, side, &mut few)?;
    }
    Ok(few)
}

/// The sides of the list that the certificate uses, in the same order. The certificate is one of infeasibility for
/// `alone`, the model with the sides of the list alone. Memory may run out.
pub(crate) fn used_among(
    alloc: Global,
    model: &Model,
    sides: &Sides,
    alone: &Model,
    certificate: &Certificate,
) -> Result<Sides, AllocError>
    requires alone { alone.now ≡ only.only model.now sides.now }
    requires present { All (IsSide model.now) sides.now }
    requires shows { ShowsInfeasible alone.now certificate.now }
    ensures { IfOk result (λ few. few ≡ rule.used_among model.now sides.now certificate.now) }
{
    let used = used(alloc, alone, certificate)?;
    let places = places(alloc, model, sides.as_slice())?;
    used_of(alloc, &used, &places, sides)
}
