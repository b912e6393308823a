// The certificate whose numbers may have any width that follows the text of its model.
ghost use Rattle.std.specs.Prelude.{◌≡◌, ◌<◌, ◌-◌, ◌^◌, IfOk, refl};
ghost use Rattle.spec_check.specs.Settle.{certificate_for};
ghost use Rattle.spec_commands.specs.CheckOut.{InText, InCertificate, Says};
ghost use Rattle.spec_commands.specs.CheckWideOut.{wide_step, wide_verdict_on};
ghost use Rattle.lp_text_commands.specs.WideSaid.{reply_of};
ghost use Rattle.lp_text_commands.specs.WideStage.{wide_step_of, wide_count_of, WideSays};

use crate::check::wide::{WideReply, WideSaid};
use lp_base::{Feed, Line};
use lp_certificate::{RawOf, ReaderOf, SettleError, SettleFault, settle};
use lp_check::wide::check;
use lp_line::{Refusal, Stage, Step};
use lp_model::Model;
use lp_mps::read::LargeReader;
use lp_ratio::Ratio;
use std::alloc::{AllocError, Global};

// A step of the reading: to a further stage, or to the reply.
type WideStep = Step<WideStage, WideReply>;

/// In the text of a model, or in the certificate after it.
#[derive(Drop)]
pub(crate) enum WideStage {
    Text(LargeReader),
    Certificate {
        model: Model,
        reader: ReaderOf<Ratio>,
    },
}

impl Stage for WideStage {
    type Said = WideReply;

    ghost says = { WideSays };

    ghost count = { wide_count_of };

    ghost silent = { λ _. refl };

    // Takes one line: of the text, or of the certificate after it.
    fn advance(self, alloc: Global, line: &Line) -> Result<WideStep, AllocError> {
        match self {
            WideStage::Text(reader) => text_line(alloc, reader, line),
            WideStage::Certificate { model, reader } => {
                certificate_line(alloc, model, reader, line)
            }
        }
    }
}

// The step by a line of the model's text: on in it, to the certificate behind it, or to its refusal.
#[tactic(auto, unfolding(spec_commands::specs::CheckWideOut::wide_step))]
fn text_line(alloc: Global, mut reader: LargeReader, line: &Line) -> Result<WideStep, AllocError>
    requires { reader.lines < 2 ^ 32 - 1 }
    ensures { IfOk result (λ step. wide_step_of step
        ≡ wide_step (InText reader.style reader.state reader.lines) line.now) }
{
    let step = match reader.feed(alloc, line) {
        Feed::More => return Ok(Step::On(WideStage::Text(reader))),
        Feed::Done(model) => Ok(Step::On(WideStage::Certificate {
            model,
            reader: ReaderOf::new(),
        })),
        Feed::Refused(fault) => Ok(Step::Says(WideReply::new(WideSaid::Refused(Refusal::Misspelled(
            fault,
        ))))),
        Feed::NoMemory => Err(AllocError),
    };
    drop(reader);
    step
}

// The step by a line of the certificate: on in it, to the verdict at its end, or to its refusal.
#[tactic(auto, unfolding(spec_commands::specs::CheckWideOut::wide_step))]
fn certificate_line(
    alloc: Global,
    model: Model,
    mut reader: ReaderOf<Ratio>,
    line: &Line,
) -> Result<WideStep, AllocError>
    requires { reader.lines < 2 ^ 32 - 1 }
    ensures { IfOk result (λ step. wide_step_of step
        ≡ wide_step (InCertificate model reader.raw reader.lines) line.now) }
{
    let step = match reader.feed(alloc, line) {
        Feed::More => return Ok(Step::On(WideStage::Certificate { model, reader })),
        Feed::Done(raw) => verdict_step(alloc, &model, raw),
        Feed::Refused(unfit) => Ok(Step::Says(WideReply::new(WideSaid::Refused(Refusal::Unfit(
            unfit,
        ))))),
        Feed::NoMemory => Err(AllocError),
    };
    drop(model);
    drop(reader);
    step
}

// The last step, which says the verdict on a certificate that was read whole, or which of its names does not fit the
// model.
fn verdict_step(alloc: Global, model: &Model, raw: RawOf<Ratio>) -> Result<WideStep, AllocError>
    ensures { IfOk result (λ step. wide_step_of step
        ≡ Says (wide_verdict_on model.now (certificate_for model.now raw))) }
{
    let said = verdict_on(alloc, model, &raw);
    drop(raw);
    Ok(Step::Says(WideReply::new(said?)))
}

// What `check --wide` says of a certificate for a model: a verdict, or a refusal where the certificate does not fit the
// model.
fn verdict_on(alloc: Global, model: &Model, raw: &RawOf<Ratio>) -> Result<WideSaid, AllocError>
    ensures { IfOk result (λ said. reply_of said ≡ wide_verdict_on model.now (certificate_for model.now raw.now)) }
{
    match settle(alloc, model, raw) {
        Ok(certificate) => {
            let verdict = check(alloc, model, &certificate);
            drop(certificate);
            Ok(WideSaid::Checked(verdict?))
        }
        Err(SettleError::Fault(SettleFault::UnknownName(name))) => {
            Ok(WideSaid::Refused(Refusal::Name(name)))
        }
        Err(SettleError::Fault(SettleFault::Repeated(name))) => {
            Ok(WideSaid::Refused(Refusal::Repeated(name)))
        }
        Err(SettleError::NoMemory) => Err(AllocError),
    }
}
