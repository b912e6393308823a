// Flips that give each reduced cost the sign that it needs.
ghost use Rattle.std.specs.Prelude.{◌≡◌, OnOk, Some};
ghost use Rattle.spec_exact.specs.Narrow.{number_limit};
ghost use Rattle.spec_simplex.specs.Step.{CanFlip};
ghost use Rattle.spec_simplex.specs.Dual as dual;
ghost use Rattle.lp_simplex.specs.Starts.{IsDualStart, IsSeated};
ghost use Rattle.lp_simplex.specs.DualAnswer.{Reaches};

use crate::dual::needs::needs_flip_at;
use lp_tableau::{RunStop, Tableau};

// Moves column `k` to its other bound and counts that. `Spent` if the budget has no flip left.
fn flip_next(tab: &mut Tableau, used: &mut u64, budget: u64, k: u32) -> Result<(), RunStop>
    requires { CanFlip tab.old k }
    ensures { Reaches (dual.flip_next (Some number_limit) budget k (record { tableau = tab.old; used = used.old }))
        tab.new used.new result }
{
    if *used >= budget {
        return Err(RunStop::Spent);
    }
    tab.flip(k)?;
    *used += 1;
    Ok(())
}

// Moves each column that is not fixed and whose reduced cost has the sign that calls for its other bound there, in
// order, and counts the flips. `Spent` if the budget has too few.
pub(crate) fn flips(tab: &mut Tableau, used: &mut u64, budget: u64) -> Result<(), RunStop>
    requires none_used { used.old ≡ 0 }
    requires ready { IsDualStart tab.old }
    ensures flips { Reaches (dual.flips_run (Some number_limit) budget tab.old) tab.new used.new result }
    ensures seated { OnOk result (IsSeated tab.new) }
{
    for k in 0..tab.width() {
        if needs_flip_at(tab, k) {
            flip_next(tab, used, budget, k)?;
        }
    }
    Ok(())
}
