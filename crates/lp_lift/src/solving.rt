// The solutions of a basis' two systems.
use crate::kernel::Prepared;
use crate::program::Program;
use crate::scales::{Scales, scale_at};
use crate::wide_sides::{cost_sides, point_sides};
use lp_frac::Frac;
use lp_sparse::wide::{product, times_wide};
use lp_sparse::{Right, Solved, System, Whole, lifted_solution};
use std::alloc::{AllocError, Global};

// The solution of a basis' equations, or of the transposed ones, for these right sides. None where lifting finds none.
fn solved_for(
    alloc: Global,
    prepared: &Prepared,
    right: &Right,
    is_turned: bool,
) -> Result<Option<Solved>, AllocError> {
    let whole = &prepared.whole;
    let (levels, bits) = if is_turned {
        (&whole.rows, whole.column_bits)
    } else {
        (&whole.columns, whole.row_bits)
    };
    let system = System {
        levels,
        factors: &prepared.factors,
        is_turned,
        is_short: whole.is_short,
    };
    let Some(mut solved) = lifted_solution(alloc, system, right, bits)? else {
        return Ok(None);
    };
    if let [1] = right.denominator.as_slice() {
        return Ok(Some(solved));
    }
    solved.denominator = product(alloc, &right.denominator, &solved.denominator)?;
    Ok(Some(solved))
}

/// Solves for the kernel's columns, where the nonbasic columns have these values. Their values are in the kernel's
/// order. None where the sides are too wide or lifting finds no solution.
pub(crate) fn solve_columns(
    alloc: Global,
    program: &Program<'_>,
    prepared: &Prepared,
    values: &[Frac],
) -> Result<Option<Solved>, AllocError> {
    match point_sides(alloc, program, prepared, values)? {
        Some(right) => solved_for(alloc, prepared, &right, false),
        None => Ok(None),
    }
}

// Multiplies each numerator by the scale of its row in the kernel.
fn scale_numerators(
    alloc: Global,
    prepared: &Prepared,
    numerators: &mut [Whole],
) -> Result<(), AllocError> {
    for (place, i) in prepared.kernel.rows.iter().enumerate() {
        if let Some(number) = numerators.get_mut(place) {
            number.words = match &prepared.whole.scales {
                Scales::Short(scales) => {
                    times_wide(alloc, &number.words, scale_at(scales, *i).unsigned_abs())?
                }
                Scales::Long(scales) => match scales.get(*i) {
                    Some(scale) => product(alloc, &number.words, scale)?,
                    None => Vec::from_slice(alloc, &number.words)?,
                },
            };
        }
    }
    Ok(())
}

/// Solves for the multipliers of the kernel's rows, with which the basic columns' reduced costs are 0 for these costs.
/// None where the sides are too wide or lifting finds no solution.
pub(crate) fn solve_rows(
    alloc: Global,
    program: &Program<'_>,
    prepared: &Prepared,
    costs: &[Frac],
) -> Result<Option<Solved>, AllocError> {
    let Some(right) = cost_sides(alloc, program, &prepared.kernel, costs)? else {
        return Ok(None);
    };
    let Some(mut solved) = solved_for(alloc, prepared, &right, true)? else {
        return Ok(None);
    };
    scale_numerators(alloc, prepared, &mut solved.numerators)?;
    Ok(Some(solved))
}
