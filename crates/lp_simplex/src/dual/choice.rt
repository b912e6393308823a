// Which pivot a dual step makes, or how the run ends.
ghost use Rattle.std.specs.Prelude.{◌≡◌, IfOk, Some};
ghost use Rattle.spec_exact.specs.Narrow.{number_limit};
ghost use Rattle.spec_pivot.specs.Dual.{bound_behind as bound_behind_of};
ghost use Rattle.spec_simplex.specs.Dual as dual;
ghost use Rattle.lp_simplex.specs.Starts.{IsSeated, CanTake};

use crate::dual::candidates::{Outside, cheapest};
use crate::dual::leaving::leaving;
use lp_form::Status;
use lp_frac::Past;
use lp_tableau::Tableau;
use spec_pivot::Way;
use spec_simplex::{DualChoice, DualEnd};

/// The position of column `k`: the last at which it is basic, and 0 where there is none.
pub fn position_of(tab: &Tableau, k: u32) -> u32
    ensures { result ≡ dual.place_of tab.now k }
{
    let mut position = 0;
    for i in 0..tab.rows() {
        if tab.basic(i) == k {
            position = i;
        }
    }
    position
}

// The bound that a column outside has passed: the lower one if it has to move up to come back, else the upper one.
fn bound_behind(way: Way) -> Status
    ensures { result ≡ bound_behind_of way }
{
    match way {
        Way::Up => Status::AtLower,
        Way::Down => Status::AtUpper,
    }
}

// The next dual pivot, or the end of the run: `Optimal` where each basic value is within its bounds, `Infeasible` where
// one is not and no column may enter.
#[tactic(auto, unfolding(spec_simplex::specs::Dual::dual_choice_run))]
pub(crate) fn choice(tab: &Tableau) -> Result<DualChoice, Past>
    requires { IsSeated tab.now }
    ensures value { result ≡ dual.dual_choice_run (Some number_limit) tab.now }
    ensures possible { IfOk result (CanTake tab.now) }
{
    let Some(out) = leaving(tab)? else {
        return Ok(DualChoice::End(DualEnd::Optimal));
    };
    let (position, direction) = (position_of(tab, out.col), out.direction);
    match cheapest(
        tab,
        Outside {
            position,
            direction,
        },
    )? {
        None => Ok(DualChoice::End(DualEnd::Infeasible {
            position,
            direction,
        })),
        Some(best) => Ok(DualChoice::Pivot {
            place: position,
            col: best.col,
            to: bound_behind(direction),
        }),
    }
}
