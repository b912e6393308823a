// Which step the primal method takes next.
ghost use Rattle.std.specs.Prelude.{◌≡◌, ◌<◌, ℕ, IfSome, Ok, Some, None, option_map};
ghost use Rattle.spec_exact.specs.Fraction.{ℚ};
ghost use Rattle.spec_simplex.specs.declared.ends.Choice.{Choice};
ghost use Rattle.spec_simplex.specs.Tableau as tableaus;
ghost use Rattle.spec_simplex.specs.Step.{choice_by, choice_of, choice_run};
ghost use Rattle.lp_rows.specs.Ratio.{best_of};
ghost use Rattle.lp_rows.specs.Shows.{IsWhole, IsReached, Shows, height, width};
ghost use Rattle.lp_rows.specs.Steps.{step_of, IsInReach, MayMake};
ghost use Rattle.lp_rows.specs.Stops.{IsStop};

use crate::choice::entering;
use crate::overflow::Overflow;
use crate::ratio::Stopper;
use crate::tableau::ratio::first_stop;
use crate::tableau::tableau::RowTableau;
use lp_form::Status;
use lp_natural::words::Words;
use lp_tableau::PrimalEnd;
use spec_simplex::Entering;

/// What a step does, without how far the entering column moves.
#[derive(Clone, Copy)]
pub enum Step {
    End(PrimalEnd),
    /// The column goes to its other bound.
    Flip(u32),
    /// The column enters at the position `place`, whose basic column goes to the bound `to`.
    Pivot { place: u32, col: u32, to: Status },
}

// The step for the entering column, where `stop` is what stops it first: a pivot, or a flip where its own other bound
// stops it. Where nothing does, the run ends as unbounded.
fn step_by<T: Words>(e: Entering, stop: Option<Stopper<T>>) -> Step
    ensures value { (d : ℕ) → step_of (choice_by e (option_map (best_of T.value d) stop)) ≡ result }
    ensures inside { (m n : ℕ) → e.col < n → IsStop T.value m stop → IsInReach m n result }
{
    let Some(stop) = stop else {
        return Step::End(PrimalEnd::Unbounded {
            col: e.col,
            direction: e.direction,
        });
    };
    match stop.position {
        None => Step::Flip(e.col),
        Some(place) => Step::Pivot {
            place,
            col: e.col,
            to: stop.to,
        },
    }
}

// The step for the entering column, by the ratio test. None where a number overflows the width.
fn step_in<T: Words>(tab: &RowTableau<T>, e: Entering) -> Option<Step>
    requires whole { IsWhole T.value tab.now }
    requires column { e.col < width tab.now }
    ensures chosen { (t : tableaus.Tableau) → Shows T.value tab.now t →
        IfSome result (λ s. (c : Choice ℚ) × (choice_of None t (Some e) ≡ Ok c) × (step_of c ≡ s)) }
    ensures inside { IfSome result (MayMake tab.now) }
{
    match first_stop(tab, e) {
        Ok(stop) => Some(step_by(e, stop)),
        Err(Overflow) => None,
    }
}

/// The next step, by the rule of the least index (Bland 1977), or the end as an optimum where no column may enter. None
/// where a number overflows the width.
pub fn next_step<T: Words>(tab: &RowTableau<T>) -> Option<Step>
    requires { IsWhole T.value tab.now }
    ensures chosen { (t : tableaus.Tableau) → IsReached t → Shows T.value tab.now t →
        IfSome result (λ s. (c : Choice ℚ) × (choice_run None t ≡ Ok c) × (step_of c ≡ s)) }
    ensures inside { IfSome result (MayMake tab.now) }
{
    match entering(&tab.costs, &tab.status, &tab.fixed) {
        Some(e) => step_in(tab, e),
        None => Some(Step::End(PrimalEnd::Optimal)),
    }
}
