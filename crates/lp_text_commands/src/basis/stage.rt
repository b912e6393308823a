// The basis file that follows the text of its model.
ghost use Rattle.std.specs.Prelude.{◌≡◌, ◌<◌, ◌-◌, ◌^◌, IfOk, Ok, Some, refl};
ghost use Rattle.spec_exact.specs.Narrow.{number_limit};
ghost use Rattle.spec_simplex.specs.Form.{form_of};
ghost use Rattle.spec_commands.specs.BasisOut.{InText, InFile, begun_file};
ghost use Rattle.lp_text_commands.specs.Basis.{step_of, step_within, reading_step, count_of, BasisSays};

use crate::basis::file::FileStage;
use crate::basis::starting::{Handed, Start};
use lp_bas::BasReader;
use lp_base::{Feed, Line};
use lp_form::{LargeForm, large_form};
use lp_frac::Stop;
use lp_line::{Stage, Step};
use lp_model::Model;
use lp_mps::read::ReaderWithin;
use spec_commands::BasisFault;
use spec_model::SizeLimits;
use std::alloc::{AllocError, Global};

/// What the text and the file say: a model to solve, or what is wrong.
pub(crate) type BasisSaid = Result<Handed, BasisFault>;

// A step of the reading: to a further stage, or to what the text and the file say.
type BasisStep = Step<BasisStage, BasisSaid>;

/// In the text of a model within some limits, or in the basis file after it.
#[derive(Drop)]
pub(crate) enum BasisStage {
    Text(ReaderWithin),
    File(FileStage),
}

impl Stage for BasisStage {
    type Said = BasisSaid;

    ghost says = { BasisSays };

    ghost count = { count_of };

    ghost silent = { λ _. refl };

    // Takes one line: of the text, or of the basis file after it.
    fn advance(self, alloc: Global, line: &Line) -> Result<BasisStep, AllocError> {
        match self {
            BasisStage::Text(reader) => text_line(alloc, reader, line),
            BasisStage::File(file) => file_line(alloc, file, line),
        }
    }
}

// The step behind the text: to the basis file where the model has a form; else to the end, without a start.
fn begin_file(alloc: Global, limits: SizeLimits, model: Model) -> Result<BasisStep, AllocError>
    ensures { IfOk result
        (λ step. step_of step ≡ step_within limits (begun_file model (form_of (Some number_limit) model))) }
{
    match large_form(alloc, &model) {
        Ok(form) => open_file(alloc, limits, model, form),
        Err(Stop::Cause(_) | Stop::Past(_)) => Ok(Step::Says(Ok(Handed { model, start: None }))),
        Err(Stop::NoMemory) => {
            drop(model);
            Err(AllocError)
        }
    }
}

// The step to the start of the basis file of this form.
fn open_file(
    alloc: Global,
    limits: SizeLimits,
    model: Model,
    form: LargeForm,
) -> Result<BasisStep, AllocError>
    requires { form_of (Some number_limit) model ≡ Ok form }
    ensures { IfOk result (λ step. step_of step ≡ step_within limits (begun_file model (Ok form))) }
{
    match BasReader::new(alloc, &form) {
        Ok(reader) => Ok(Step::On(BasisStage::File(FileStage {
            limits,
            model,
            form,
            reader,
        }))),
        Err(AllocError) => {
            drop(form);
            drop(model);
            Err(AllocError)
        }
    }
}

// The step by a line of the model's text: on in it, to the basis file behind it, or to its fault.
#[tactic(auto, unfolding(spec_commands::specs::BasisOut::basis_step))]
fn text_line(alloc: Global, mut reader: ReaderWithin, line: &Line) -> Result<BasisStep, AllocError>
    requires { reader.text.lines < 2 ^ 32 - 1 }
    ensures { IfOk result (λ step. step_of step ≡ reading_step (record {
      limits = reader.limits;
      stage = InText reader.text.style reader.text.state reader.text.lines;
    }) line.now) }
{
    let limits = reader.limits();
    let step = match reader.feed(alloc, line) {
        Feed::More => return Ok(Step::On(BasisStage::Text(reader))),
        Feed::Done(model) => begin_file(alloc, limits, model),
        Feed::Refused(fault) => Ok(Step::Says(Err(BasisFault::Text(fault)))),
        Feed::NoMemory => Err(AllocError),
    };
    drop(reader);
    step
}

// The step by a line of the basis file: on in it, to its end with the basis, or to its fault.
#[tactic(auto, unfolding(spec_commands::specs::BasisOut::basis_step))]
fn file_line(alloc: Global, file: FileStage, line: &Line) -> Result<BasisStep, AllocError>
    requires { file.lines < 2 ^ 32 - 1 }
    ensures { IfOk result (λ step. step_of step ≡ reading_step (record {
      limits = file.limits;
      stage = InFile file.model file.form file.state file.lines;
    }) line.now) }
{
    let FileStage {
        limits,
        model,
        form,
        mut reader,
    } = file;
    let step = match reader.feed(alloc, &model, &form, line) {
        Feed::More => return Ok(Step::On(BasisStage::File(FileStage {
            limits,
            model,
            form,
            reader,
        }))),
        Feed::Done(basis) => {
            drop(reader);
            let start = Some(Start { form, basis });
            return Ok(Step::Says(Ok(Handed { model, start })));
        }
        Feed::Refused(fault) => Ok(Step::Says(Err(BasisFault::File(fault)))),
        Feed::NoMemory => Err(AllocError),
    };
    drop(model);
    drop(form);
    drop(reader);
    step
}
