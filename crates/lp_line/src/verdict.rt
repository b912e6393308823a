// What is said of certificates.
ghost use Rattle.std.specs.Prelude.{◌≡◌, IfOk};
ghost use Rattle.spec_check.specs.Settle.{certificate_for};
ghost use Rattle.spec_server.specs.Machine as machine;

use crate::asks::{Refusal, Reply};
use lp_certificate::{RawCertificate, SettleError, SettleFault, settle};
use lp_check::check;
use lp_model::Model;
use std::alloc::{AllocError, Global};

/// The reply to a certificate for a model: the verdict, or the name in it that does not fit.
pub fn verdict_on(alloc: Global, model: &Model, raw: &RawCertificate) -> Result<Reply, AllocError>
    ensures { IfOk result (λ reply. reply ≡ machine.verdict_on model.now (certificate_for model.now raw.now)) }
{
    match settle(alloc, model, raw) {
        Ok(certificate) => Ok(Reply::Checked(check(model, &certificate))),
        Err(SettleError::Fault(SettleFault::UnknownName(name))) => {
            Ok(Reply::Refused(Refusal::Name(name)))
        }
        Err(SettleError::Fault(SettleFault::Repeated(name))) => {
            Ok(Reply::Refused(Refusal::Repeated(name)))
        }
        Err(SettleError::NoMemory) => Err(AllocError),
    }
}
