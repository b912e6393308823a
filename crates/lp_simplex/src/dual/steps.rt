// The flips, and then steps up to an end.
ghost use Rattle.std.specs.Prelude.{◌≡◌, ◌-◌, IfOk, Some};
ghost use Rattle.spec_exact.specs.Narrow.{number_limit};
ghost use Rattle.spec_simplex.specs.Dual as dual;
ghost use Rattle.lp_tableau.specs.Answer.{GivesRun};
ghost use Rattle.lp_simplex.specs.Starts.{IsDualStart, IsSeated, CanEnter, IsPlace};
ghost use Rattle.lp_simplex.specs.DualAnswer.{DualRuns};

use crate::dual::choice::choice;
use crate::dual::flips::flips;
use lp_form::Status;
use lp_frac::{Past, div, sub};
use lp_tableau::{Pivot, RunStop, Tableau, stand};
use spec_simplex::{DualChoice, DualEnd};

// Moves the pivot's column so far that the column at its position comes to its bound `to`, and makes it basic there.
#[tactic(auto, unfolding(spec_simplex::specs::Dual::dual_pivot_run))]
fn pivot(tab: &mut Tableau, at: Pivot, to: Status) -> Result<(), Past>
    requires { CanEnter tab.old at.position at.column to }
    ensures { GivesRun (dual.dual_pivot_run (Some number_limit) tab.old at.position at.column to) tab.new result }
{
    let out = tab.basic(at.position);
    let gap = sub(tab.value(out), stand(to, tab.lower(out), tab.upper(out)))?;
    let theta = div(gap, tab.entry(at.position, at.column))?;
    tab.pivot(at, theta, to)
}

// Takes dual steps up to an end, and counts them. `Spent` where the budget has no pivot left.
fn steps(tab: &mut Tableau, used: &mut u64, budget: u64) -> Result<DualEnd, RunStop>
    requires { IsSeated tab.old }
    ensures runs { DualRuns (dual.dual_from (Some number_limit) (budget - used.old) used.old tab.old)
        tab.new used.new result }
    ensures inside { IfOk result (IsPlace tab.new) }
{
    loop {
        match choice(tab)? {
            DualChoice::End(end) => return Ok(end),
            DualChoice::Pivot { place, col, to } => {
                if *used >= budget {
                    return Err(RunStop::Spent);
                }
                let at = Pivot {
                    position: place,
                    column: col,
                };
                pivot(tab, at, to)?;
                *used += 1;
            }
        }
    }
}

/// Gives the reduced costs of columns that are not fixed their signs by flips, and then takes dual steps. It ends
/// `Optimal` where each basic value is within its bounds, and `Infeasible` where one is not and no column can bring it
/// back; `Past` where an operation overflows, and `Spent` where one more flip or pivot is due after `budget` of them.
/// `used` counts them. After `Past` the tableau is spent.
///
/// `IsDualStart` holds of the tableau of a dual feasible basis.
#[tactic(auto, unfolding(spec_simplex::specs::Dual::dual_run))]
pub fn run(tab: &mut Tableau, used: &mut u64, budget: u64) -> Result<DualEnd, RunStop>
    requires none_used { used.old ≡ 0 }
    requires ready { IsDualStart tab.old }
    ensures runs { DualRuns (dual.dual_run (Some number_limit) budget tab.old) tab.new used.new result }
    ensures inside { IfOk result (IsPlace tab.new) }
{
    flips(tab, used, budget)?;
    steps(tab, used, budget)
}
