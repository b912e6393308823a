// What a search for an irreducible infeasible subset of a model ended with, as it is written.
ghost use Rattle.std.specs.Prelude.{◌≡◌, ◌++◌, ◌∷◌, [], All, OnOk, Some, codes, decimal};
ghost use Rattle.spec_exact.specs.Narrow.{number_limit};
ghost use Rattle.spec_model.specs.Kept.{IsUsualModel};
ghost use Rattle.spec_check.specs.Certificate.{IsFor};
ghost use Rattle.spec_certificate.specs.TextWritten.{certificate_lines};
ghost use Rattle.spec_iis.specs.Only.{only};
ghost use Rattle.spec_iis.specs.Rule.{IsRead};
ghost use Rattle.spec_iis.specs.Found.{IsFound};
ghost use Rattle.spec_server.specs.Machine.{opening_budget};
ghost use Rattle.spec_server.specs.Output.{ended_lines};
ghost use Rattle.spec_commands.specs.IisOut.{end_words, found_lines};

use crate::iis::points::print_points;
use crate::iis::sides::print_sides;
use crate::solve::print_answer;
use lp_base::Bytes;
use lp_certificate::cert_text;
use lp_check::Certificate;
use lp_iis::{Points, Sides, only};
use lp_line::{print_lines, push_numbered};
use lp_model::Model;
use lp_solve::End;
use std::alloc::{AllocError, Global};

/// Writes the line of what a solve ended with.
pub(crate) fn print_end(alloc: Global, end: &End, to: &mut Bytes) -> Result<(), AllocError>
    ensures { OnOk result (to.new ≡ to.old ++ ended_lines (end_words end.now ∷ [])) }
{
    print_answer(alloc, end, to)
}

/// Appends that no point is feasible, and in the line `STOPPED` with which reply a solve of some sides gave up.
pub(crate) fn print_stopped(alloc: Global, end: &End, to: &mut Bytes) -> Result<(), AllocError>
    ensures { OnOk result
        (to.new ≡ to.old ++ ended_lines (codes "INFEASIBLE" ∷ (codes "STOPPED " ++ end_words end.now) ∷ [])) }
{
    to.extend(b"INFEASIBLE\nSTOPPED ")?;
    print_end(alloc, end, to)
}

/// Appends that no point is feasible, the sides that were found, the certificate that no point meets them together, the
/// points that meet all but one, and `END`.
pub(crate) fn print_found(
    alloc: Global,
    model: &Model,
    sides: &Sides,
    certificate: &Certificate,
    points: &Points,
    to: &mut Bytes,
) -> Result<(), AllocError>
    requires model { IsUsualModel model.now }
    requires found { IsFound model.now opening_budget sides.now certificate.now points.now }
    ensures { OnOk result
        (to.new ≡ to.old ++ ended_lines (found_lines model.now sides.now certificate.now points.now)) }
{
    print_heading(alloc, sides.len(), to)?;
    print_sides(model, sides, to)?;
    print_certificate(alloc, model, sides, certificate, to)?;
    print_points(alloc, model, points, to)?;
    to.extend(b"END\n")
}

// Appends the line that no point is feasible, and the line with the number of sides that were found.
fn print_heading(alloc: Global, count: usize, to: &mut Bytes) -> Result<(), AllocError>
    ensures { OnOk result (to.new ≡ to.old ++ ((codes "INFEASIBLE\nIIS " ++ decimal count) ++ 10 ∷ [])) }
{
    push_numbered(alloc, b"INFEASIBLE\nIIS ", count as u64, to)?;
    to.push(b'\n')
}

// Appends the lines of the certificate, which is one of the model with the sides alone.
fn print_certificate(
    alloc: Global,
    model: &Model,
    sides: &Sides,
    certificate: &Certificate,
    to: &mut Bytes,
) -> Result<(), AllocError>
    requires model { IsUsualModel model.now }
    requires read { All (IsRead (Some number_limit) model.now) sides.now }
    requires fits { IsFor (only model.now sides.now) certificate.now }
    ensures { OnOk result
        (to.new ≡ to.old ++ ended_lines (certificate_lines (only model.now sides.now) certificate.now)) }
{
    let alone = only(alloc, model, sides.as_slice())?;
    let lines = cert_text(alloc, &alone, certificate);
    drop(alone);
    let lines = lines?;
    print_lines(&lines, to)
}
