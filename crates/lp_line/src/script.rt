// A script, line by line.
// What owns much is let go by a call of `drop`: one step of a proof, where the end of a scope is one for each part.
ghost use Rattle.std.specs.Prelude.{◌≡◌, ◌≢◌, ◌<◌, ◌+◌, ◌-◌, ◌^◌, IfOk, Ok, Some};
ghost use Rattle.spec_text.specs.declared.line.Line.TheVariants.{End};
ghost use Rattle.spec_server.specs.Script.{ask_of_verdict, ask_of_judgement};
ghost use Rattle.spec_mps.specs.Steps.{Verdict};
ghost use Rattle.spec_certificate.specs.NarrowText.{Judgement};
ghost use Rattle.lp_line.specs.Hearing.{Leads};
ghost use Rattle.lp_line.specs.Script.{ScriptSays, lines_in, Begins, IsEndOf, verdict_said, judgement_said};
ghost use Rattle.lp_line.specs.declared.hearing.Step.TheVariants as step;
ghost use Rattle.lp_line.specs.declared.script.ScriptStage.TheVariants as stage;

use crate::asks::{Ask, Asked, Command};
use crate::body::{Body, close, pass};
use crate::command::read;
use crate::ends::{ends_certificate, ends_text};
use crate::halt::Halt;
use crate::hearing::{Stage, Step};
use crate::stages::{CertificateSaid, TextSaid};
use lp_base::Line;
use lp_certificate::CertReader;
use lp_mps::read::Reader;
use spec_server::Addressing;
use std::alloc::{AllocError, Global};

/// Between two commands, or in the body of one.
#[derive(Drop)]
pub enum ScriptStage {
    Between(Addressing),
    Text {
        session: u32,
        body: Body<Reader, TextSaid>,
    },
    Certificate {
        session: u32,
        body: Body<CertReader, CertificateSaid>,
    },
}

// Where a line of a script leads: on, or to the next ask, or to the end before one, or to what halts the reading.
type ScriptStep = Step<ScriptStage, Result<Option<Asked>, Halt>>;

impl Stage for ScriptStage {
    type Said = Result<Option<Asked>, Halt>;

    ghost use Rattle.std.specs.Prelude.{refl};

    ghost says = { ScriptSays };

    ghost count = { lines_in };

    ghost silent = { λ stage addressing pending fits. refl };

    // Where a line leads a script, or what it says: at the end of the input how the script ends.
    fn advance(self, alloc: Global, line: &Line) -> Result<ScriptStep, AllocError> {
        match line {
            Line::End => {
                let end = end_of(&self);
                drop(self);
                Ok(Step::Says(end))
            }
            Line::Text(_) | Line::Long(_) | Line::Over => match self {
                ScriptStage::Between(addressing) => line_between(alloc, addressing, line),
                ScriptStage::Text { session, body } => line_of_text(alloc, session, body, line),
                ScriptStage::Certificate { session, body } => {
                    line_of_certificate(alloc, session, body, line)
                }
            },
        }
    }
}

// How a script ends whose input ends in this state of the reading: well between two commands, or `Cut` in a body.
fn end_of(stage: &ScriptStage) -> Result<Option<Asked>, Halt>
    ensures { IsEndOf stage.now result }
{
    match stage {
        ScriptStage::Between(_) => Ok(None),
        ScriptStage::Text { .. } | ScriptStage::Certificate { .. } => Err(Halt::Cut),
    }
}

// What a command leads to: a request that is complete, or a body that begins.
fn begin(alloc: Global, addressed: spec_server::Asked<Command>) -> ScriptStep
    ensures { Begins addressed.session addressed.ask result }
{
    let session = addressed.session;
    match addressed.ask {
        Command::Load(style) => Step::On(ScriptStage::Text {
            session,
            body: Body::Reading(Reader::new(alloc, style)),
        }),
        Command::Check => Step::On(ScriptStage::Certificate {
            session,
            body: Body::Reading(CertReader::new()),
        }),
        Command::Plain(plain) => asked(session, Ask::Plain(plain)),
        Command::Bad(fault) => asked(session, Ask::Bad(fault)),
    }
}

// The step of the reading that gives this request of this session.
fn asked(session: u32, ask: Ask) -> ScriptStep
    ensures { result ≡ step.Says (Ok (Some (record { session = session; ask = ask }))) }
{
    Step::Says(Ok(Some(Asked { session, ask })))
}

// Reads a line between two commands: it completes a request, begins the body of one, or is skipped.
fn line_between(
    alloc: Global,
    addressing: Addressing,
    line: &Line,
) -> Result<ScriptStep, AllocError>
    requires { line.now ≢ End }
    ensures { IfOk result (Leads ScriptSays lines_in (stage.Between addressing) line.now) }
{
    match read(alloc, addressing, line)? {
        Some(addressed) => Ok(begin(alloc, addressed)),
        None => Ok(Step::On(ScriptStage::Between(addressing))),
    }
}

// The request of a session that has read a model's text: with the model, or with the text's fault.
fn ask_of_text(said: TextSaid) -> Ask
    ensures { (verdict : Verdict) → verdict_said verdict ≡ said → ask_of_verdict verdict ≡ result }
{
    match said {
        Ok(model) => Ask::Loaded(model),
        Err(fault) => Ask::Misspelled(fault),
    }
}

// The request of a session that has read a certificate: with the certificate, or with the line that does not fit.
fn ask_of_certificate(said: CertificateSaid) -> Ask
    ensures { (judgement : Judgement) → judgement_said judgement ≡ said → ask_of_judgement judgement ≡ result }
{
    match said {
        Ok(raw) => Ask::Checked(raw),
        Err(unfit) => Ask::Unfit(unfit),
    }
}

// Reads a line of a model's text: the body goes on, or its last line completes the request.
fn line_of_text(
    alloc: Global,
    session: u32,
    body: Body<Reader, TextSaid>,
    line: &Line,
) -> Result<ScriptStep, AllocError>
    requires small { lines_in (stage.Text session body) < 2 ^ 32 - 1 }
    requires given { line.now ≢ End }
    ensures { IfOk result (Leads ScriptSays lines_in (stage.Text session body) line.now) }
{
    let Ok(ends) = ends_text(alloc, line) else {
        drop(body);
        return Err(AllocError);
    };
    let body = pass(alloc, body, line)?;
    if !ends {
        return Ok(Step::On(ScriptStage::Text { session, body }));
    }
    let said = close(alloc, body)?;
    Ok(asked(session, ask_of_text(said)))
}

// Reads a line of a certificate's text: the body goes on, or its last line completes the request.
fn line_of_certificate(
    alloc: Global,
    session: u32,
    body: Body<CertReader, CertificateSaid>,
    line: &Line,
) -> Result<ScriptStep, AllocError>
    requires small { lines_in (stage.Certificate session body) < 2 ^ 32 - 1 }
    requires given { line.now ≢ End }
    ensures { IfOk result (Leads ScriptSays lines_in (stage.Certificate session body) line.now) }
{
    let Ok(ends) = ends_certificate(alloc, line) else {
        drop(body);
        return Err(AllocError);
    };
    let body = pass(alloc, body, line)?;
    if !ends {
        return Ok(Step::On(ScriptStage::Certificate { session, body }));
    }
    let said = close(alloc, body)?;
    Ok(asked(session, ask_of_certificate(said)))
}
