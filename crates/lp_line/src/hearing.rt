// Inputs that are read line by line, up to the line at which something is said.
ghost use Rattle.std.specs.Prelude.{◌≡◌, ◌≤◌, ◌<◌, ◌-◌, ◌^◌, ℕ, List, [], Option, None, IfOk, IsErrOf};
ghost use Rattle.lp_base.specs.Causes.{Rose};
ghost use Rattle.spec_text.specs.declared.line.Line.{Line as exact_line};
ghost use Rattle.lp_line.specs.Hearing.{Leads, HearsNext};

use lp_base::{Line, LineStop, Lines, Source};
use std::alloc::{AllocError, Global};

/// What a line leads to, from a stage of type `T`: the next line is read, or something of type `R` is said.
#[derive(Drop)]
pub enum Step<T, R> {
    On(T),
    Says(R),
}

/// What was read so far of an input.
pub trait Stage: Drop {
    /// What is said of the input.
    type Said: Drop;

    // what lines say after it; nothing where more are needed
    ghost says: { Self → List (exact_line (List ℕ)) → Option Self.Said → Type 0 };

    // of how many lines it is
    ghost count: { Self → ℕ };

    /// Takes the next line of an input, and gives the further state of the reading or the result.
    fn advance(self, alloc: Global, line: &Line) -> Result<Step<Self, Self::Said>, AllocError>
        requires { count self < 2 ^ 32 - 1 }
        ensures { IfOk result (Leads says count self line.now) };

    // no lines say nothing
    ghost silent: { (stage : Self) → says stage [] None };
}

/// What was heard of an input.
#[derive(Drop)]
pub enum Heard<R> {
    Says(R),

    /// The input is longer than may be read, and nothing is said of it.
    Over,
}

/// Feeds a stage lines of the input up to the one at which it says something, and gives that. `Over` where the input is
/// too long.
pub fn hear<S: Source, T: Stage>(
    alloc: Global,
    first: T,
    lines: &mut Lines,
    source: &mut S,
) -> Result<Heard<T::Said>, LineStop>
    requires { T.count first ≡ 0 }
    ensures heard { HearsNext (T.says first) (S.left source.old) (S.left source.new) lines.old lines.new result }
    ensures later { S.read_faults source.old ≤ S.read_faults source.new }
    ensures read { IsErrOf result LineStop.Read → Rose (S.read_faults source.old) (S.read_faults source.new) }
    ensures beside { S.beside_reads source.new ≡ S.beside_reads source.old }
{
    let mut stage = first;
    loop {
        match lines.next(source)? {
            Line::Over => return Ok(Heard::Over),
            line => {
                let step = stage.advance(alloc, &line);
                drop(line);
                match step? {
                    Step::On(next) => stage = next,
                    Step::Says(said) => return Ok(Heard::Says(said)),
                }
            }
        }
    }
}
