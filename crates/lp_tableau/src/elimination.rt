// The rows of a pivot, without the columns that are twins: artificial columns, each of which is its row's logical
// column or the negative of that.
ghost use Rattle.std.specs.Prelude.{◌≡◌, ◌≢◌, ◌<◌, ◌≤◌, ◌+◌, [], Some, length, get_or, take};
ghost use Rattle.spec_exact.specs.Fraction.{0ℚ};
ghost use Rattle.spec_exact.specs.Narrow.{number_limit};
ghost use Rattle.spec_simplex.specs.Tableau.{at_place};
ghost use Rattle.spec_simplex.specs.Step.{cleared_run, turned_run};
ghost use Rattle.lp_tableau.specs.Answer.{GivesRun};
ghost use Rattle.lp_tableau.specs.Grid.{IsGrid, IsListed};
ghost use Rattle.lp_tableau.specs.Twins.{signed as signed_of, twinned, scaled_by, cleared_by};

use crate::grid::Grid;
use crate::pivot::Pivot;
use lp_frac::{Frac, Past, div, is_zero, less_product, neg, within};

// `v`, or its negative if `is_turned`.
fn signed(is_turned: bool, v: Frac) -> Frac
    ensures { result ≡ signed_of is_turned v }
{
    if is_turned { neg(v) } else { v }
}

// The entry of row `i` in column `k`. Behind the columns that are kept, column `k` is a twin: the kept one, or its
// negative.
pub(crate) fn item(
    grid: &Grid,
    first: u32,
    others: u32,
    turned: &[bool],
    i: usize,
    k: usize,
) -> Frac
    requires shape { IsGrid others (first + others) grid.now }
    requires few { first + others ≤ 1024 }
    requires twins { length turned.now ≡ others }
    requires row { i < others }
    requires column { k < first + others + others }
    ensures { result ≡ at_place (twinned first turned.now grid.now) i k }
{
    let width = (first + others) as usize;
    if k < width {
        return grid.at(i, k);
    }
    let r = k - width;
    signed(turned[r], grid.at(i, first as usize + r))
}

// Divides the entries of row `p` by the number `by`. Refused where a number is past 127 bits.
fn scale(grid: &mut Grid, height: u32, width: u32, p: u32, by: Frac) -> Result<(), Past>
    requires shape { IsGrid height width grid.old }
    requires place { p < height }
    requires divisor { by ≢ 0ℚ }
    ensures rows { GivesRun (scaled_by (Some number_limit) width grid.old p by) grid.new result }
    ensures shape { IsGrid height width grid.new }
{
    for k in 0..width {
        let entry = div(grid.at(p as usize, k as usize), by)?;
        grid.set(p as usize, k as usize, entry);
    }
    Ok(())
}

// Lists the columns in which row `p` is not 0 at the start of `spots`, and returns how many they are.
fn list(spots: &mut [u32], grid: &Grid, height: u32, width: u32, p: u32) -> usize
    requires shape { IsGrid height width grid.now }
    requires place { p < height }
    requires room { width ≤ length spots.old }
    ensures inside { result ≤ length spots.new }
    ensures listed { IsListed (get_or grid.now p []) width (take result spots.new) }
{
    let mut count = 0;
    for k in 0..width {
        if is_zero(grid.at(p as usize, k as usize)) {
            continue;
        }
        spots[count] = k;
        count += 1;
    }
    count
}

// Subtracts `times` times row `p` from row `i`. Row `p` is 0 but in the columns of `spots`. Refused where a number is
// past 127 bits.
fn clear(
    grid: &mut Grid,
    height: u32,
    width: u32,
    p: u32,
    times: Frac,
    i: u32,
    spots: &[u32],
) -> Result<(), Past>
    requires shape { IsGrid height width grid.old }
    requires place { p < height }
    requires row { i < height }
    requires other { i ≢ p }
    requires listed { IsListed (get_or grid.old p []) width spots.now }
    ensures rows { GivesRun (cleared_by (Some number_limit) width p times i grid.old) grid.new result }
    ensures shape { IsGrid height width grid.new }
    ensures rest { get_or grid.new p [] ≡ get_or grid.old p [] }
{
    grid.narrow();
    within(times);
    if is_zero(times) {
        return Ok(());
    }
    for spot in spots {
        let k = *spot;
        let entry = less_product(
            times,
            grid.at(p as usize, k as usize),
            grid.at(i as usize, k as usize),
        )?;
        grid.set(i as usize, k as usize, entry);
    }
    Ok(())
}

// Subtracts the multiple of the pivot's row from row `i` with which its entry in the pivot's column becomes 0. Refused
// where a number is past 127 bits.
fn clear_twins(
    grid: &mut Grid,
    first: u32,
    others: u32,
    turned: &[bool],
    at: Pivot,
    i: u32,
    spots: &[u32],
) -> Result<(), Past>
    requires shape { IsGrid others (first + others) grid.old }
    requires few { first + others ≤ 1024 }
    requires twins { length turned.now ≡ others }
    requires place { at.position < others }
    requires column { at.column < first + others + others }
    requires row { i < others }
    requires other { i ≢ at.position }
    requires listed { IsListed (get_or grid.old at.position []) (first + others) spots.now }
    ensures rows { GivesRun (cleared_run (Some number_limit) (first + others + others) at.position at.column i
        (twinned first turned.now grid.old)) (twinned first turned.now grid.new) result }
    ensures shape { IsGrid others (first + others) grid.new }
    ensures rest { get_or grid.new at.position [] ≡ get_or grid.old at.position [] }
{
    let times = item(grid, first, others, turned, i as usize, at.column as usize);
    clear(grid, others, first + others, at.position, times, i, spots)
}

// Pivots all rows: afterwards the pivot's column has 1 in the row of its position and 0 in all other rows. Refused
// where a number is past 127 bits.
pub(crate) fn turn(
    grid: &mut Grid,
    first: u32,
    others: u32,
    turned: &[bool],
    at: Pivot,
) -> Result<(), Past>
    requires shape { IsGrid others (first + others) grid.old }
    requires few { first + others ≤ 1024 }
    requires twins { length turned.now ≡ others }
    requires place { at.position < others }
    requires column { at.column < first + others + others }
    requires entry { at_place (twinned first turned.now grid.old) at.position at.column ≢ 0ℚ }
    ensures rows { GivesRun (turned_run (Some number_limit) others (first + others + others)
        (twinned first turned.now grid.old) at.position at.column) (twinned first turned.now grid.new) result }
    ensures shape { IsGrid others (first + others) grid.new }
{
    let (p, j) = (at.position, at.column);
    let by = item(grid, first, others, turned, p as usize, j as usize);
    scale(grid, others, first + others, p, by)?;
    let mut spots = [0; 1024];
    let count = list(&mut spots, grid, others, first + others, p);
    for i in 0..others {
        if i != p {
            clear_twins(grid, first, others, turned, at, i, &spots[..count])?;
        }
    }
    Ok(())
}
