// What is said of an input that is read from its start on, and what is written of that.
ghost use Rattle.std.specs.Prelude.{◌≡◌, ℕ, List, Option, OnOk, IfOk, IsErrOf};
ghost use Rattle.lp_base.specs.Causes.{Rose};
ghost use Rattle.spec_text.specs.declared.line.Line.{Line as exact_line};
ghost use Rattle.lp_text_commands.specs.Prints.{Prints};
ghost use Rattle.lp_text_commands.specs.Hearing.{Agrees, HearsSo, SaysSo};
ghost use Rattle.lp_text_commands.specs.Writing.{WritesSo};
ghost use Rattle.spec_server.specs.Streams.{streams};

use crate::exit_status::ExitStatus;
use lp_base::{Bytes, Lines, Sink, Source, send};
use lp_line::{Halt, Heard, Stage, hear};
use std::alloc::{AllocError, Global};

/// What is said of an input, as it is written.
pub(crate) trait Output: Drop {
    // whether it may be printed
    ghost can_print: { Self → Type 0 };

    // what may be written of it, and the status of it
    ghost may_write: { Self → List ℕ → Type 0 };

    ghost code: { Self → ℕ };

    /// Appends the output of a result to the text, and gives the exit status.
    fn print(self, alloc: Global, to: &mut Bytes) -> Result<ExitStatus, AllocError>
        requires { can_print self }
        ensures output { OnOk result (Prints (may_write self) to.old to.new) }
        ensures status { IfOk result (λ status. status.code ≡ code self) };
}

/// Reads lines of the source up to the one at which something is said, or to its end, and gives what is said. An input
/// that is longer than may be read is `Halt::Over`.
pub(crate) fn hear_input<S: Source, T: Stage>(
    alloc: Global,
    first: T,
    src: &mut S,
) -> Result<T::Said, Halt>
    requires { T.count first ≡ 0 }
    ensures output { (said : List (exact_line (List ℕ)) → Option T.Said) → Agrees (T.says first) said →
        HearsSo said (S.left src.old) (S.left src.new) result }
    ensures read { IsErrOf result Halt.Read → Rose (S.read_faults src.old) (S.read_faults src.new) }
    ensures no_write { IsErrOf result Halt.Write → ⊥ }
{
    let mut lines = Lines::new(alloc)?;
    match hear(alloc, first, &mut lines, src)? {
        Heard::Says(said) => Ok(said),
        Heard::Over => Err(Halt::Over),
    }
}

/// Writes the output of what is said to the sink, and gives its exit status. Where memory does not suffice for the
/// output, nothing is written.
pub(crate) fn send_output<O: Output, K: Sink>(
    alloc: Global,
    said: O,
    out: &mut K,
) -> Result<ExitStatus, Halt>
    requires { O.can_print said }
    ensures output { WritesSo (O.may_write said) (O.code said) (K.taken out.old) (K.taken out.new) result }
    ensures write { IsErrOf result Halt.Write → Rose (K.write_faults out.old) (K.write_faults out.new) }
{
    let mut text = Bytes::new(alloc);
    let status = said.print(alloc, &mut text)?;
    send(out, text.as_slice())?;
    Ok(status)
}

/// Reads lines of the source up to the one at which something is said, or to its end, writes the output of what is said
/// to the sink, and gives its status.
pub(crate) fn say<S: Source, K: Sink, T: Stage>(
    alloc: Global,
    first: T,
    src: &mut S,
    out: &mut K,
) -> Result<ExitStatus, Halt>
where
    T::Said: Output,
    requires count { T.count first ≡ 0 }
    requires can_print { (said : T.Said) → T.Said.can_print said }
    ensures output { (said : List (exact_line (List ℕ)) → Option T.Said) → Agrees (T.says first) said →
        SaysSo said T.Said.may_write T.Said.code
        (streams (S.left src.old) (S.left src.new) (K.taken out.old) (K.taken out.new)) result }
    ensures read { IsErrOf result Halt.Read → Rose (S.read_faults src.old) (S.read_faults src.new) }
    ensures write { IsErrOf result Halt.Write → Rose (K.write_faults out.old) (K.write_faults out.new) }
{
    let said = hear_input(alloc, first, src)?;
    let mut text = Bytes::new(alloc);
    let status = said.print(alloc, &mut text)?;
    send(out, text.as_slice())?;
    Ok(status)
}
