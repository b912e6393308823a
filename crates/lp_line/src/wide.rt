// The lines that an exact solve is answered with.
ghost use Rattle.std.specs.Prelude.{◌≡◌, ◌++◌, IfOk, OnOk};
ghost use Rattle.spec_server.specs.WideLines as wide;
ghost use Rattle.spec_check.specs.Certificate.{IsFor};
ghost use Rattle.spec_solve.specs.declared.exact.ExactEnd.TheVariants as ends;
ghost use Rattle.lp_line.specs.ExactEnds.{HasFit};

use lp_base::{Bytes, Texts};
use lp_certificate::cert_text;
use lp_check::wide::{Known, Ratios};
use lp_form::Basis;
use lp_model::Model;
use lp_numtext::wide_text;
use lp_ratio::Ratio;
use std::alloc::{AllocError, Global};

// How an exact solve ends, and its answer.
type ExactEnd = spec_solve::ExactEnd<Ratio, Ratios, Basis>;

type ExactAnswer = spec_solve::ExactAnswer<Ratio, Ratios, Basis>;

/// Adds to a text the line of an answer, whose optimal value may have any width.
pub fn push_wide_known(alloc: Global, known: &Known, to: &mut Bytes) -> Result<(), AllocError>
    ensures { OnOk result (to.new ≡ to.old ++ wide.wide_known_text known.now) }
{
    match known {
        Known::Optimal(value) => {
            let text = wide_text(alloc, value)?;
            to.extend(b"OPTIMAL ")?;
            to.extend(text.as_slice())
        }
        Known::Infeasible => to.extend(b"INFEASIBLE"),
        Known::Unbounded => to.extend(b"UNBOUNDED"),
    }
}

// The line of an exact solve's answer, and the lines of its certificate.
fn answer_lines(alloc: Global, model: &Model, answer: &ExactAnswer) -> Result<Texts, AllocError>
    requires { IsFor model.now answer.now.certificate }
    ensures { IfOk result (λ lines. lines ≡ wide.wide_lines model.now (ends.Answered answer.now)) }
{
    let mut line = Bytes::new(alloc);
    push_wide_known(alloc, &answer.known, &mut line)?;
    let mut lines = cert_text(alloc, model, &answer.certificate)?;
    lines.insert(0, line)?;
    Ok(lines)
}

/// The lines of an exact solve: its answer and its certificate, or the one line `OPEN` where it found no answer.
pub fn wide_lines(alloc: Global, model: &Model, end: &ExactEnd) -> Result<Texts, AllocError>
    requires { HasFit model.now end.now }
    ensures { IfOk result (λ lines. lines ≡ wide.wide_lines model.now end.now) }
{
    match end {
        ExactEnd::Answered(answer) => answer_lines(alloc, model, answer),
        ExactEnd::Open => {
            let mut line = Bytes::new(alloc);
            line.extend(b"OPEN")?;
            let mut lines = Texts::new(alloc);
            lines.push(line)?;
            Ok(lines)
        }
    }
}
