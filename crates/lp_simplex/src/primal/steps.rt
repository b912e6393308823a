// Runs of primal steps up to an end.
ghost use Rattle.std.specs.Prelude.{◌≡◌, ◌<◌, ◌≤◌, ◌-◌, IfErr, Some};
ghost use Rattle.spec_exact.specs.Narrow.{number_limit};
ghost use Rattle.spec_simplex.specs.Step.{CanMake};
ghost use Rattle.spec_simplex.specs.Phases.{done_run, run_from};
ghost use Rattle.lp_tableau.specs.Answer.{GivesRun};
ghost use Rattle.lp_simplex.specs.PrimalAnswer.{Runs, StopsAfter};

use crate::primal::choice::{Choice, choice};
use lp_frac::Past;
use lp_tableau::{Pivot, PrimalEnd, RunStop, Tableau};

// Makes the flip or the pivot of a choice. An end changes nothing.
fn make(tab: &mut Tableau, choice: Choice) -> Result<(), Past>
    requires { CanMake tab.old choice }
    ensures { GivesRun (done_run (Some number_limit) tab.old choice) tab.new result }
{
    match choice {
        Choice::End(_) => Ok(()),
        Choice::Flip { col } => tab.flip(col),
        Choice::Pivot {
            place,
            col,
            theta,
            to,
        } => {
            let at = Pivot {
                position: place,
                column: col,
            };
            tab.pivot(at, theta, to)
        }
    }
}

/// Takes steps until no column may enter (`Optimal`), nothing stops the column that enters
/// (`Unbounded`), an operation overflows (`Past`), or one more is due after `budget` pivots and flips
/// (`Spent`). `used` counts them, whether they end or stop. After `Past` the tableau is spent.
pub fn run(tab: &mut Tableau, used: &mut u64, budget: u64) -> Result<PrimalEnd, RunStop>
    ensures ended { Runs (run_from (Some number_limit) (budget - used.old) used.old tab.old) tab.new used.new result }
    ensures stopped { IfErr result (StopsAfter budget used.old tab.old used.new) }
{
    loop {
        let next = choice(tab)?;
        if let Choice::End(end) = next {
            return Ok(end);
        }
        if *used >= budget {
            return Err(RunStop::Spent);
        }
        make(tab, next)?;
        *used += 1;
    }
}
