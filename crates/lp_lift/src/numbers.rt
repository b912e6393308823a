// The numbers of a certificate.
ghost use Rattle.std.specs.Prelude.{◌≡◌, IfOk, length};
ghost use Rattle.spec_model.specs.Model.{height};

use crate::kernel::{Kernel, place_at};
use crate::program::Program;
use crate::sides::{of_logicals, part};
use lp_check::wide::Ratios;
use lp_frac::Frac;
use lp_natural::Natural;
use lp_ratio::Ratio;
use lp_sparse::Solved;
use std::alloc::{AllocError, Global};

// The number at a place of a solution, or its opposite; 0 where the solution has no such place or the denominator 0.
fn solved_number(
    alloc: Global,
    solved: &Solved,
    place: usize,
    is_opposite: bool,
) -> Result<Ratio, AllocError> {
    match solved.numerators.get(place) {
        Some(number) if !number.words.is_empty() => {
            let top = Natural::from_words(alloc, &number.words)?;
            let under = Natural::from_words(alloc, &solved.denominator)?;
            if under.is_zero() {
                drop(top);
                drop(under);
                return Ratio::zero(alloc);
            }
            Ok(Ratio::quotient(alloc, number.is_negative != is_opposite, top, under))
        }
        Some(_) | None => Ratio::zero(alloc),
    }
}

/// A list of `len` numbers: that of the solution where there is a place, negated where `is_opposite`, and else that of
/// `others`.
pub(crate) fn numbers(
    alloc: Global,
    len: u32,
    places: &[Option<usize>],
    solved: &Solved,
    is_opposite: bool,
    others: &[Frac],
) -> Result<Ratios, AllocError>
    ensures { IfOk result (λ x. length x ≡ len) }
{
    let mut list = Ratios::new(alloc);
    for k in 0..len {
        let number = match place_at(places, k as usize) {
            Some(place) => solved_number(alloc, solved, place, is_opposite)?,
            None => Ratio::new(alloc, part(others, k as usize))?,
        };
        list.push(number)?;
    }
    Ok(list)
}

/// A list of `len` numbers: 0 where there is a place in the solution, and else that of `others`.
pub(crate) fn other_numbers(
    alloc: Global,
    len: u32,
    places: &[Option<usize>],
    others: &[Frac],
) -> Result<Ratios, AllocError>
    ensures { IfOk result (λ x. length x ≡ len) }
{
    let mut list = Ratios::new(alloc);
    for j in 0..len {
        let number = match place_at(places, j as usize) {
            Some(_) => Ratio::zero(alloc)?,
            None => Ratio::new(alloc, part(others, j as usize))?,
        };
        list.push(number)?;
    }
    Ok(list)
}

/// The multipliers of all rows: those of a solution or their opposites, and by these costs where a logical column is
/// basic.
pub(crate) fn multipliers(
    alloc: Global,
    program: &Program<'_>,
    kernel: &Kernel,
    solved: &Solved,
    is_opposite: bool,
    costs: &[Frac],
) -> Result<Ratios, AllocError>
    ensures { IfOk result (λ y. length y ≡ height program.now.model.now) }
{
    let others = of_logicals(alloc, program, costs)?;
    let len = program.model.rows();
    numbers(alloc, len, &kernel.row_places, solved, is_opposite, &others)
}
