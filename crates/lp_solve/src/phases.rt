// Both phases of a cold solve over whole tableaus.
ghost use Rattle.std.specs.Prelude.{◌≡◌, IfOk, Ok, Some};
ghost use Rattle.spec_exact.specs.Narrow.{number_limit};
ghost use Rattle.spec_simplex.specs.Start.{start_of};
ghost use Rattle.spec_simplex.specs.Phases as phases;
ghost use Rattle.lp_simplex.specs.PrimalAnswer.{Runs};
ghost use Rattle.lp_solve.specs.Ends.{Ends, EndsAt, IsInside};

use lp_form::Form;
use lp_simplex::primal::run;
use lp_tableau::{PrimalEnd, RunStop, Tableau};

/// How both phases ended: the last tableau, and the count of pivots and flips.
#[derive(Drop)]
pub(crate) struct Ended {
    pub(crate) tab: Tableau,
    pub(crate) used: u64,
    /// The end of phase two. There is none where phase one leaves an artificial that is not 0.
    pub(crate) end: Option<PrimalEnd>,
}

// Runs phase one on the tableau, if an artificial is basic. Otherwise its end is at once `Optimal`.
fn phase_one(tab: &mut Tableau, used: &mut u64, budget: u64) -> Result<PrimalEnd, RunStop>
    requires { used.old ≡ 0 }
    ensures { Runs (phases.phase_one (Some number_limit) budget tab.old) tab.new used.new result }
{
    if tab.wants_phase_one() {
        run(tab, used, budget)
    } else {
        Ok(PrimalEnd::Optimal)
    }
}

// Runs both phases on the tableau that the form begins with. They share the budget, which `used` counts. There is no
// end where phase one leaves an artificial that is not 0: no point is feasible then.
fn both_phases(
    tab: &mut Tableau,
    used: &mut u64,
    form: &Form,
    budget: u64,
) -> Result<Option<PrimalEnd>, RunStop>
    requires unused { used.old ≡ 0 }
    requires start { start_of (Some number_limit) form.now ≡ Ok tab.old }
    ensures answer { EndsAt (phases.phases_run (Some number_limit) budget form.now) tab.new used.new result }
    ensures inside { IfOk result (IsInside tab.new) }
{
    phase_one(tab, used, budget)?;
    if tab.is_stuck() {
        return Ok(None);
    }
    tab.phase_two(form)?;
    let end = run(tab, used, budget)?;
    Ok(Some(end))
}

/// Runs both phases from the tableau that the form begins with, and tells their end with the tableau that they left.
pub(crate) fn phases(mut tab: Tableau, form: &Form, budget: u64) -> Result<Ended, RunStop>
    requires { start_of (Some number_limit) form.now ≡ Ok tab }
    ensures answer { Ends (phases.phases_run (Some number_limit) budget form.now) result }
    ensures inside { IfOk result (λ e. IsInside e.tab e.end) }
{
    let mut used = 0;
    match both_phases(&mut tab, &mut used, form, budget) {
        Ok(end) => Ok(Ended { tab, used, end }),
        Err(stop) => {
            drop(tab);
            Err(stop)
        }
    }
}
