// Which step the primal method takes, or how the run ends.
ghost use Rattle.std.specs.Prelude.{◌≡◌, IfOk, Some};
ghost use Rattle.spec_exact.specs.Narrow.{number_limit};
ghost use Rattle.spec_simplex.specs.Step.{choice_by, choice_run, CanMake};

use crate::primal::entering::entering;
use crate::primal::ratio::{Best, best};
use lp_frac::{Frac, Past};
use lp_tableau::{PrimalEnd, Tableau, directed};
use spec_simplex::Entering;

/// A flip, a pivot, or the end of the run.
pub type Choice = spec_simplex::Choice<Frac>;

/// The step for the entering column, where `best` is the least ratio of the ratio test: a pivot, or a flip where its
/// own bound is met first. Without a ratio it is the end, as unbounded.
pub fn chosen(e: Entering, best: Option<Best>) -> Choice
    ensures { result ≡ choice_by e best }
{
    let Some(best) = best else {
        let (col, direction) = (e.col, e.direction);
        return Choice::End(PrimalEnd::Unbounded { col, direction });
    };
    match best.place {
        None => Choice::Flip { col: e.col },
        Some(place) => Choice::Pivot {
            place,
            col: e.col,
            theta: directed(e.direction, best.ratio),
            to: best.to,
        },
    }
}

// The next flip or pivot, by Bland's rule and the ratio test, or the end of the run.
#[tactic(auto, unfolding(spec_simplex::specs::Step::choice_run))]
pub(crate) fn choice(tab: &Tableau) -> Result<Choice, Past>
    ensures value { result ≡ choice_run (Some number_limit) tab.now }
    ensures possible { IfOk result (CanMake tab.now) }
{
    let Some(e) = entering(tab) else {
        return Ok(Choice::End(PrimalEnd::Optimal));
    };
    Ok(chosen(e, best(tab, e)?))
}
