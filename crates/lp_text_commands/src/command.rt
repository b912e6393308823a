// What a command makes of what it is given, and then writes of that.
ghost use Rattle.std.specs.Prelude.{◌≡◌, ◌++◌, ℕ, List, IfOk, OnOk};
ghost use Rattle.lp_text_commands.specs.Prints.{Prints};

use crate::exit_status::ExitStatus;
use lp_base::Bytes;
use std::alloc::{AllocError, Global};

/// A command: it makes an outcome of what it is given, and then writes the lines of the outcome.
pub(crate) trait Command {
    /// A model, or a model and where its solve starts.
    type Given;

    type Outcome: Drop;

    // what it may be given
    ghost takes: { Self → Self.Given → Type 0 };

    // what it may make of that
    ghost may_make: { Self → Self.Given → Self.Outcome → Type 0 };

    // the lines of an outcome
    ghost lines: { Self → Self.Given → Self.Outcome → List ℕ };

    // what may be written
    ghost may_write: { Self → Self.Given → List ℕ → Type 0 };

    /// Makes the command's outcome of the model, or of the model and its basis, that it is given.
    fn run(&self, alloc: Global, given: &Self::Given) -> Result<Self::Outcome, AllocError>
        requires { takes self.now given.now }
        ensures { IfOk result (may_make self.now given.now) };

    /// Appends the lines of the command's outcome to the text.
    fn write(
        &self,
        alloc: Global,
        given: &Self::Given,
        outcome: &Self::Outcome,
        to: &mut Bytes,
    ) -> Result<(), AllocError>
        requires takes { takes self.now given.now }
        requires made { may_make self.now given.now outcome.now }
        ensures { OnOk result (to.new ≡ to.old ++ lines self.now given.now outcome.now) };

    // the lines of what it may make are what may be written
    ghost is_written: { (command : Self) → (given : Self.Given) → (outcome : Self.Outcome) →
        may_make command given outcome → may_write command given (lines command given outcome) };
}

/// Runs a command on what it is given, appends the lines of its outcome to the text, and gives status 0.
pub(crate) fn perform<C: Command>(
    alloc: Global,
    command: &C,
    given: &C::Given,
    to: &mut Bytes,
) -> Result<ExitStatus, AllocError>
    requires { C.takes command.now given.now }
    ensures output { OnOk result (Prints (C.may_write command.now given.now) to.old to.new) }
    ensures status { IfOk result (λ status. status.code ≡ 0) }
{
    let outcome = command.run(alloc, given)?;
    let written = command.write(alloc, given, &outcome, to);
    drop(outcome);
    written?;
    Ok(ExitStatus::DONE)
}
