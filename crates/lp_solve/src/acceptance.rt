// Certificates of unproved engines, or of runs without a limit: each is checked before it is an answer's.
ghost use Rattle.std.specs.Prelude.{IfOk, IfSome};
ghost use Rattle.spec_check.specs.Certificate.{IsFor};
ghost use Rattle.spec_solve.specs.Exact.{IsShown};

use crate::lines::fits_lines;
use lp_check::wide::{Certificate, Known, Verdict, check};
use lp_model::Model;
use std::alloc::{AllocError, Global};

/// The answer that the checker without a limit gives to the certificate; none if it says no, or the numerator or
/// denominator of a number is past half a line.
pub(crate) fn accepted(
    alloc: Global,
    model: &Model,
    certificate: &Certificate,
) -> Result<Option<Known>, AllocError>
    requires { IsFor model.now certificate.now }
    ensures { IfOk result (λ o. IfSome o (λ known. IsShown model.now known certificate.now)) }
{
    let Verdict::Yes(known) = check(alloc, model, certificate)? else {
        return Ok(None);
    };
    if fits_lines(alloc, certificate)? {
        Ok(Some(known))
    } else {
        drop(known);
        Ok(None)
    }
}
