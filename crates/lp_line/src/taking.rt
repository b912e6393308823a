// The asks of an input, one by one.
ghost use Rattle.std.specs.Prelude.{◌≡◌, ◌≤◌, IsErrOf};
ghost use Rattle.lp_base.specs.Causes.{Rose};
ghost use Rattle.lp_line.specs.Takes.{TakesMore, TakesNext};

use crate::asks::Asked;
use crate::halt::Halt;
use crate::hearing::{Heard, hear};
use crate::script::ScriptStage;
use lp_base::{Lines, Source};
use spec_server::Addressing;
use std::alloc::Global;

/// Reads the lines up to the one that completes the next request. There is none where the input ends between two
/// commands. An input that ends inside a body is `Halt::Cut`, and one that is too long `Halt::Over`.
pub fn take<S: Source>(
    alloc: Global,
    addressing: Addressing,
    lines: &mut Lines,
    source: &mut S,
) -> Result<Option<Asked>, Halt>
    ensures taken { TakesNext addressing (S.left source.old) (S.left source.new) lines.old lines.new result }

    // An ask takes a byte at least.
    ensures more { TakesMore lines.old lines.new result }

    ensures later { S.read_faults source.old ≤ S.read_faults source.new }
    ensures read { IsErrOf result Halt.Read → Rose (S.read_faults source.old) (S.read_faults source.new) }
    ensures beside { S.beside_reads source.new ≡ S.beside_reads source.old }
{
    match hear(alloc, ScriptStage::Between(addressing), lines, source)? {
        Heard::Says(next) => next,
        Heard::Over => Err(Halt::Over),
    }
}
