// Both solves over a list of pairs.
ghost use Rattle.std.specs.Prelude.{◌≡◌, Some, All, length};
ghost use Rattle.spec_exact.specs.Narrow.{number_limit};
ghost use Rattle.spec_factor.specs.Factors.{ftran_run, btran_run};
ghost use Rattle.lp_revised.specs.FactorAnswer.{GivesRun};

use crate::eta::Eta;
use crate::items::tell_narrow;
use lp_frac::{Fracs, Past};

// Applies the pairs to `v` from the first to the last, which is ftran. After a refusal `v` may hold any numbers.
pub(crate) fn forward_all(etas: &[Eta], v: &mut Fracs) -> Result<(), Past>
    requires { All (λ e. length e.column ≡ length v.old) etas.now }
    ensures run { GivesRun (ftran_run (Some number_limit) (length v.old) etas.now v.old) v.new result }
    ensures all { length v.new ≡ length v.old }
{
    tell_narrow(v);
    for eta in etas {
        eta.forward(v)?;
    }
    Ok(())
}

// Applies the transposed pairs to `v` from the last to the first, which is btran. After a refusal `v` may hold any
// numbers.
pub(crate) fn backward_all(etas: &[Eta], v: &mut Fracs) -> Result<(), Past>
    requires { All (λ e. length e.column ≡ length v.old) etas.now }
    ensures run { GivesRun (btran_run (Some number_limit) (length v.old) etas.now v.old) v.new result }
    ensures all { length v.new ≡ length v.old }
{
    tell_narrow(v);
    let last = etas.len();
    for done in 0..last {
        etas[last - 1 - done].backward(v)?;
    }
    Ok(())
}
