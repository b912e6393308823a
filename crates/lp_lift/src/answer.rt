// The answer of a basis, or of one that is reached from it in a few steps.
ghost use Rattle.std.specs.Prelude.{◌≡◌, ◌+◌, IfOk, IfSome, length};
ghost use Rattle.spec_model.specs.Model.{height, width};
ghost use Rattle.spec_check.specs.Certificate.{IsFor};
ghost use Rattle.lp_lift.specs.Ends.{EndsFor};

use crate::kernel::{Kernel, Preparation, Prepared, prepare};
use crate::lifted::{Lifted, Step, lifted_from};
use crate::moves::{
    Entering, Leaving, advance, blocked, dual_entering, entering_at, exchange, flip_wrong,
    furthest_outside, leaving_at, most_wrong,
};
use crate::near::near_fraction;
use crate::numbers::{multipliers, numbers};
use crate::program::{Program, program_of};
use crate::shifts::shift;
use crate::solving::{solve_columns, solve_rows};
use crate::standing::Room;
use crate::statuses::{fitting_statuses, standings};
use crate::wide_standing::{all_reduced, rates_of, rooms};
use lp_check::wide::{Certificate, Ratios};
use lp_frac::{Frac, neg, one, zero};
use lp_model::Model;
use lp_sparse::Solved;
use spec_pivot::{Status, Way};
use std::alloc::{AllocError, Global};

// The point and the multipliers of a basis, and how its columns stand.
struct Found {
    columns: Solved,
    rows: Solved,
    values: Vec<Frac>,
    rooms: Vec<Room>,
    reduced: Vec<f64>,
}

impl Drop for Found {
    fn drop(self) {
        let Found {
            columns,
            rows,
            values,
            rooms,
            reduced,
        } = self;
        drop(columns);
        drop(rows);
        drop(values);
        drop(rooms);
        drop(reduced);
    }
}

// A basis on the way, the costs there, and how many steps it took.
struct Run {
    statuses: Vec<Status>,
    costs: Vec<Frac>,
    are_shifted: bool,
    steps: u32,
    /// The column to begin with, until that was done.
    witness: Option<usize>,
}

impl Drop for Run {
    fn drop(self) {
        let Run {
            statuses,
            costs,
            are_shifted: _,
            steps: _,
            witness: _,
        } = self;
        drop(statuses);
        drop(costs);
    }
}

// The exact point and multipliers at a basis and by these costs, with the rooms and reduced costs in floats; `None`
// where the right sides are too wide or lifting found no solution of the basis' equations.
fn found_at(
    alloc: Global,
    program: &Program<'_>,
    prepared: &Prepared,
    statuses: &[Status],
    costs: &[Frac],
) -> Result<Option<Found>, AllocError> {
    let values = standings(alloc, program, statuses)?;
    let Some(columns) = solve_columns(alloc, program, prepared, &values)? else {
        return Ok(None);
    };
    let Some(rows) = solve_rows(alloc, program, prepared, costs)? else {
        return Ok(None);
    };
    let rooms = rooms(alloc, program, prepared, &columns, &values)?;
    let reduced = all_reduced(alloc, program, &prepared.kernel, statuses, &rows, costs)?;
    Ok(Some(Found {
        columns,
        rows,
        values,
        rooms,
        reduced,
    }))
}

// Numbers of all columns: 1 (up) or -1 (down) for column `k`, and 0 for each other one.
fn units(alloc: Global, len: usize, k: usize, way: Way) -> Result<Vec<Frac>, AllocError> {
    let mut list = Vec::from_elem(alloc, zero(), len)?;
    if let Some(number) = list.get_mut(k) {
        *number = match way {
            Way::Up => one(),
            Way::Down => neg(one()),
        };
    }
    Ok(list)
}

// The values of the structural columns: a column of the kernel has the value that the lifted solution gives it, and any
// other column has its value in `others`.
fn point(
    alloc: Global,
    program: &Program<'_>,
    prepared: &Prepared,
    solved: &Solved,
    others: &[Frac],
) -> Result<Ratios, AllocError>
    ensures { IfOk result (λ x. length x ≡ width program.now.model.now) }
{
    let places = &prepared.kernel.column_places;
    numbers(alloc, program.model.cols(), places, solved, false, others)
}

// The end with the certificate of an optimum: the basis' point, and its multipliers by the program's costs.
fn optimal(
    alloc: Global,
    program: &Program<'_>,
    prepared: &Prepared,
    found: &Found,
) -> Result<Step, AllocError>
    ensures { IfOk result (EndsFor program.now.model.now) }
{
    let x = point(alloc, program, prepared, &found.columns, &found.values)?;
    let kernel = &prepared.kernel;
    let y = multipliers(alloc, program, kernel, &found.rows, false, &program.costs)?;
    Ok(Step::Ended(Certificate::Optimal { x, y }))
}

// The end with Farkas multipliers, from the row of a leaving column for which no column may enter. `solved` solves that
// row.
fn infeasible(
    alloc: Global,
    program: &Program<'_>,
    kernel: &Kernel,
    solved: &Solved,
    leaving: Leaving,
    columns: usize,
) -> Result<Step, AllocError>
    ensures { IfOk result (EndsFor program.now.model.now) }
{
    let is_below = leaving.is_below();
    let back = if is_below { Way::Down } else { Way::Up };
    let outside = units(alloc, columns, leaving.column, back)?;
    let y = multipliers(alloc, program, kernel, solved, is_below, &outside)?;
    Ok(Step::Ended(Certificate::Infeasible { y }))
}

// A step of the dual method: exchanges the leaving column with the one that enters for it. Ends with Farkas multipliers
// where none may enter; `Lost` where right sides are too wide or lifting finds no solution.
fn dual_step(
    alloc: Global,
    program: &Program<'_>,
    prepared: &Prepared,
    statuses: &mut [Status],
    found: &Found,
    leaving: Leaving,
) -> Result<Step, AllocError>
    ensures { IfOk result (EndsFor program.now.model.now) }
{
    let kernel = &prepared.kernel;
    let costs = units(alloc, statuses.len(), leaving.column, Way::Up)?;
    let Some(solved) = solve_rows(alloc, program, prepared, &costs)? else {
        return Ok(Step::Lost);
    };
    let rates = all_reduced(alloc, program, kernel, statuses, &solved, &costs)?;
    match dual_entering(program, statuses, leaving, &found.reduced, &rates) {
        Some(entering) => {
            exchange(statuses, entering, leaving.column, leaving.is_below());
            Ok(Step::Moved)
        }
        None => infeasible(alloc, program, kernel, &solved, leaving, statuses.len()),
    }
}

// The distance between the bounds of a column, infinite where one is absent.
fn range(program: &Program<'_>, k: usize) -> f64 {
    match (program.lower(k), program.upper(k)) {
        (Some(lower), Some(upper)) => near_fraction(upper) - near_fraction(lower),
        _ => f64::INFINITY,
    }
}

// The end with a point, and with the ray along which the entering column goes, as nothing stops it.
fn unbounded(
    alloc: Global,
    program: &Program<'_>,
    prepared: &Prepared,
    found: &Found,
    solved: &Solved,
    moves: &[Frac],
) -> Result<Step, AllocError>
    ensures { IfOk result (EndsFor program.now.model.now) }
{
    let x = point(alloc, program, prepared, &found.columns, &found.values)?;
    let r = point(alloc, program, prepared, solved, moves)?;
    Ok(Step::Ended(Certificate::Unbounded { x, r }))
}

// A step of the primal method: the entering column goes as far as it may, and exchanges or flips. Ends with a point and
// a ray where nothing stops it; `Lost` where right sides are too wide or lifting finds no solution.
fn primal_step(
    alloc: Global,
    program: &Program<'_>,
    prepared: &Prepared,
    statuses: &mut [Status],
    found: &Found,
    entering: Entering,
) -> Result<Step, AllocError>
    ensures { IfOk result (EndsFor program.now.model.now) }
{
    let moves = units(alloc, statuses.len(), entering.column, entering.way)?;
    let Some(solved) = solve_columns(alloc, program, prepared, &moves)? else {
        return Ok(Step::Lost);
    };
    let rates = rates_of(alloc, program, prepared, &solved, &moves)?;
    let range = range(program, entering.column);
    match blocked(range, &found.rooms, &rates) {
        Some(block) => {
            advance(statuses, entering, block);
            Ok(Step::Moved)
        }
        None => unbounded(alloc, program, prepared, found, &solved, &moves),
    }
}

// One step from a basis: at the run's witness, if it has one that allows a step, else by the rules. A witness that is
// outside of its bounds takes a step of the dual method. One whose reduced cost is wrong takes a step of the primal
// method, if no column is outside. The witness is used up.
fn step_at(
    alloc: Global,
    program: &Program<'_>,
    prepared: &Prepared,
    run: &mut Run,
    found: &Found,
) -> Result<Step, AllocError>
    ensures { IfOk result (EndsFor program.now.model.now) }
{
    let witness = run.witness;
    run.witness = None;
    if let Some(k) = witness {
        if let Some(leaving) = leaving_at(&found.rooms, k) {
            return dual_step(alloc, program, prepared, &mut run.statuses, found, leaving);
        }
        if furthest_outside(&found.rooms).is_none() {
            if let Some(entering) = entering_at(program, &run.statuses, &found.reduced, k) {
                return primal_step(alloc, program, prepared, &mut run.statuses, found, entering);
            }
        }
    }
    step_by_rules(alloc, program, prepared, run, found)
}

// One step from a basis, the first of these that applies: flips of columns with wrong reduced costs, at the run's start
// or if a column is outside of its bounds; shifts of costs, if one is outside, else a step of the dual method; the
// program's costs again, if they were shifted; a step of the primal method; the end with an optimum.
fn step_by_rules(
    alloc: Global,
    program: &Program<'_>,
    prepared: &Prepared,
    run: &mut Run,
    found: &Found,
) -> Result<Step, AllocError>
    ensures { IfOk result (EndsFor program.now.model.now) }
{
    let outside = furthest_outside(&found.rooms);
    let may_flip = run.steps == 0 || outside.is_some();
    if may_flip && flip_wrong(program, &mut run.statuses, &found.reduced) {
        return Ok(Step::Moved);
    }
    if let Some(leaving) = outside {
        if shift(&mut run.costs, &run.statuses, &found.reduced) {
            run.are_shifted = true;
            return Ok(Step::Moved);
        }
        return dual_step(alloc, program, prepared, &mut run.statuses, found, leaving);
    }
    if run.are_shifted {
        run.costs = Vec::from_slice(alloc, &program.costs)?;
        run.are_shifted = false;
        return Ok(Step::Moved);
    }
    match most_wrong(program, &run.statuses, &found.reduced) {
        Some(entering) => primal_step(alloc, program, prepared, &mut run.statuses, found, entering),
        None => optimal(alloc, program, prepared, found),
    }
}

// One step from the run's basis. A singular basis is mended, which is a step too. `Lost` where the numbers are too wide
// or lifting finds no solution.
fn step_from(alloc: Global, program: &Program<'_>, run: &mut Run) -> Result<Step, AllocError>
    ensures { IfOk result (EndsFor program.now.model.now) }
{
    let prepared = match prepare(alloc, program, &mut run.statuses)? {
        Preparation::Ready(prepared) => prepared,
        Preparation::Mended => return Ok(Step::Moved),
        Preparation::Past => return Ok(Step::Lost),
    };
    match found_at(alloc, program, &prepared, &run.statuses, &run.costs)? {
        Some(found) => step_at(alloc, program, &prepared, run, &found),
        None => Ok(Step::Lost),
    }
}

// The certificate to which steps from a basis lead, with the statuses there. None where more than `most_steps` steps
// are wanted, or a step is lost.
fn answer_from(
    alloc: Global,
    program: &Program<'_>,
    statuses: &[Status],
    witness: Option<usize>,
    most_steps: u32,
) -> Result<Option<Lifted>, AllocError>
    ensures certificate { IfOk result (λ o. IfSome o (λ l. IsFor program.now.model.now l.certificate)) }
    ensures statuses { IfOk result (λ o. IfSome o (λ l.
        length l.statuses.items ≡ width program.now.model.now + height program.now.model.now)) }
{
    let mut run = Run {
        statuses: fitting_statuses(alloc, program, statuses)?,
        costs: Vec::from_slice(alloc, &program.costs)?,
        are_shifted: false,
        steps: 0,
        witness,
    };
    for _ in 0..most_steps.saturating_add(1) {
        match step_from(alloc, program, &mut run)? {
            Step::Moved => run.steps = run.steps.wrapping_add(1),
            Step::Ended(certificate) => return Ok(run.into_lifted(program.columns(), certificate)),
            Step::Lost => return Ok(None),
        }
    }
    Ok(None)
}

/// A certificate for the model, of an optimum or that there is none, from a basis with these statuses of the structural
/// and then of the logical columns. It is that of this basis, or of one that is reached from it in so many steps at
/// most.
///
/// The statuses may be those of no basis. Of columns that depend on each other some leave, logical columns come in where
/// basic ones are missing, and a column without a bound where it stands goes to another. A basis that is mended so counts
/// as a step, as do flips of columns to their other bound, and each step of the dual or the primal method. There is no
/// answer where the steps are too few, and where a number is past what the method takes.
///
/// The first step is tried at the column `witness`, if one is named by which there is likely no optimum: a basic one that
/// nothing brings within its bounds, or another one that nothing stops.
///
/// Nothing is claimed of what the certificate shows: that is for the checker. Its only error is to be out of memory.
pub fn answer_of_basis(
    alloc: Global,
    model: &Model,
    statuses: &[Status],
    witness: Option<usize>,
    most_steps: u32,
) -> Result<Option<Lifted>, AllocError>
    ensures certificate { IfOk result (λ o. IfSome o (λ l. IsFor model.now l.certificate)) }
    ensures statuses { IfOk result (λ o. IfSome o (λ l.
        length l.statuses.items ≡ width model.now + height model.now)) }
{
    match program_of(alloc, model)? {
        Some(program) => answer_from(alloc, &program, statuses, witness, most_steps),
        None => Ok(None),
    }
}

impl Run {
    // The run's end with this certificate, its statuses and its steps. `None` where there are not statuses of `columns`
    // columns.
    fn into_lifted(self, columns: usize, certificate: Certificate) -> Option<Lifted>
        ensures certificate { IfSome result (λ l. l.certificate ≡ certificate) }
        ensures statuses { IfSome result (λ l. length l.statuses.items ≡ columns) }
    {
        let Run {
            statuses,
            costs,
            are_shifted: _,
            steps,
            witness: _,
        } = self;
        drop(costs);
        lifted_from(certificate, statuses, columns, steps)
    }
}
