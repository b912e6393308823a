// The check of a certificate that follows the text of its model.
ghost use Rattle.std.specs.Prelude.{◌≡◌, ◌<◌, ◌-◌, ◌^◌, IfOk, refl};
ghost use Rattle.spec_check.specs.Settle.{certificate_for};
ghost use Rattle.spec_commands.specs.CheckOut.{InText, InCertificate, Says, check_step};
ghost use Rattle.spec_server.specs.Machine as machine;
ghost use Rattle.lp_text_commands.specs.Stage.{step_of, count_of, CheckSays};

use lp_base::{Feed, Line};
use lp_certificate::{CertReader, RawCertificate};
use lp_line::{Refusal, Reply, Stage, Step, verdict_on};
use lp_model::{Model, UsualModel};
use lp_mps::read::Reader;
use std::alloc::{AllocError, Global};

// A step of the reading: to a further stage, or to the reply.
type CheckStep = Step<CheckStage, Reply>;

/// In the text of a model, or in the certificate after it.
#[derive(Drop)]
pub(crate) enum CheckStage {
    Text(Reader),
    Certificate {
        model: UsualModel,
        reader: CertReader,
    },
}

impl Stage for CheckStage {
    type Said = Reply;

    ghost says = { CheckSays };

    ghost count = { count_of };

    ghost silent = { λ _. refl };

    // Takes one line: of the text, or of the certificate after it.
    fn advance(self, alloc: Global, line: &Line) -> Result<CheckStep, AllocError> {
        match self {
            CheckStage::Text(reader) => text_line(alloc, reader, line),
            CheckStage::Certificate { model, reader } => {
                certificate_line(alloc, model, reader, line)
            }
        }
    }
}

// The step by a line of the model's text: on in it, to the certificate behind it, or to its refusal.
#[tactic(auto, unfolding(spec_commands::specs::CheckOut::check_step))]
fn text_line(alloc: Global, mut reader: Reader, line: &Line) -> Result<CheckStep, AllocError>
    requires { reader.lines < 2 ^ 32 - 1 }
    ensures { IfOk result (λ step. step_of step ≡ check_step (InText reader.style reader.state reader.lines) line.now) }
{
    let step = match reader.feed(alloc, line) {
        Feed::More => return Ok(Step::On(CheckStage::Text(reader))),
        Feed::Done(model) => Ok(Step::On(CheckStage::Certificate {
            model,
            reader: CertReader::new(),
        })),
        Feed::Refused(fault) => Ok(Step::Says(Reply::Refused(Refusal::Misspelled(fault)))),
        Feed::NoMemory => Err(AllocError),
    };
    drop(reader);
    step
}

// The step by a line of the certificate: on in it, to the verdict at its end, or to its refusal.
#[tactic(auto, unfolding(spec_commands::specs::CheckOut::check_step))]
fn certificate_line(
    alloc: Global,
    model: UsualModel,
    mut reader: CertReader,
    line: &Line,
) -> Result<CheckStep, AllocError>
    requires { reader.lines < 2 ^ 32 - 1 }
    ensures { IfOk result (λ step. step_of step ≡ check_step (InCertificate model reader.raw reader.lines) line.now) }
{
    let step = match reader.feed(alloc, line) {
        Feed::More => return Ok(Step::On(CheckStage::Certificate { model, reader })),
        Feed::Done(raw) => verdict(alloc, model.model(), raw),
        Feed::Refused(unfit) => Ok(Step::Says(Reply::Refused(Refusal::Unfit(unfit)))),
        Feed::NoMemory => Err(AllocError),
    };
    drop(model);
    drop(reader);
    step
}

// The last step, which says the verdict on a certificate that was read whole, or which of its names does not fit the
// model.
fn verdict(alloc: Global, model: &Model, raw: RawCertificate) -> Result<CheckStep, AllocError>
    ensures { IfOk result (λ step. step_of step ≡ Says (machine.verdict_on model.now (certificate_for model.now raw))) }
{
    let said = verdict_on(alloc, model, &raw);
    drop(raw);
    Ok(Step::Says(said?))
}
