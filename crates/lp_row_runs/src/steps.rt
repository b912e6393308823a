// Steps at one width.
ghost use Rattle.spec_simplex.specs.Tableau.{Tableau};
ghost use Rattle.lp_rows.specs.Shows.{IsWhole, IsReached, Shows};
ghost use Rattle.lp_rows.specs.Steps.{MayMake};
ghost use Rattle.lp_row_runs.specs.Steps.{PausesAt, KeepsAt};

use lp_natural::words::Words;
use lp_rows::tableau::{RowTableau, Step, effort_of, is_roomy, make, next_step};
use lp_tableau::PrimalEnd;

/// How steps at one width pause.
#[derive(Clone, Copy)]
pub(crate) enum StepsPause {
    Ended(PrimalEnd),
    /// A number is past the width, or may be in the next step. The tableau is as before that step.
    Narrow,
    /// The budget or the work is spent, or a number is past the widest words.
    GaveUp,
}

// Whether the step is left to wider words, since a number of it may be past the width. Never where there are no wider
// words.
fn is_too_narrow<T: Words>(tab: &RowTableau<T>, step: Step, may_widen: bool) -> bool
    requires whole { IsWhole T.value tab.now }
    requires inside { MayMake tab.now step }
{
    if may_widen {
        !is_roomy(tab, step)
    } else {
        false
    }
}

/// Takes the work of a step off the work that is left. Where that is less, it stays and the answer is false.
pub(crate) fn spend(work: &mut u64, takes: u64) -> bool {
    match work.checked_sub(takes) {
        Some(left) => {
            *work = left;
            true
        }
        None => false,
    }
}

/// Takes steps until no column may enter or nothing stops the column that enters (`Ended`), or a number is or may be
/// past the width (`Narrow`). Where the budget or the work is spent, or a number of a step is past the widest words, it
/// gives up (`GaveUp`). `used` counts the steps, with those before.
pub(crate) fn run<T: Words>(
    tab: &mut RowTableau<T>,
    used: &mut u64,
    work: &mut u64,
    budget: u64,
    may_widen: bool,
) -> StepsPause
    requires { IsWhole T.value tab.old }
    ensures run { (t : Tableau) → IsReached t → Shows T.value tab.old t →
        PausesAt T.value budget used.old t tab.new used.new result }
    ensures kept { KeepsAt T.value tab.old tab.new result }
{
    loop {
        let Some(next) = next_step(tab) else {
            return StepsPause::Narrow;
        };
        if let Step::End(end) = next {
            return StepsPause::Ended(end);
        }
        if *used >= budget {
            return StepsPause::GaveUp;
        }
        if is_too_narrow(tab, next, may_widen) {
            return StepsPause::Narrow;
        }
        if !spend(work, effort_of(tab, next)) {
            return StepsPause::GaveUp;
        }
        if !make(tab, next) {
            return StepsPause::GaveUp;
        }
        *used += 1;
    }
}
