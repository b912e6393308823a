// The asks of a script, read to its end.
ghost use Rattle.std.specs.Prelude.{IfOk, IsErrOf};
ghost use Rattle.lp_base.specs.Causes.{Rose};
ghost use Rattle.lp_script.specs.Script.{ReadsScript};

use lp_base::{Lines, Source};
use lp_line::{Addressing, Asked, Halt, take};
use std::alloc::{AllocError, Global};

/// The asks that were read whole, and why no more were.
#[derive(Drop)]
pub(crate) struct Script {
    pub(crate) asks: Vec<Asked>,
    pub(crate) end: Result<(), Halt>,
}

/// Reads the requests of a script up to its end, or to what halts it.
pub(crate) fn read_script<S: Source>(alloc: Global, src: &mut S) -> Result<Script, AllocError>
    ensures script { ReadsScript (S.left src.old) (S.left src.new) result }
    ensures read { IfOk result (λ script.
        IsErrOf script.end Halt.Read → Rose (S.read_faults src.old) (S.read_faults src.new)) }
{
    let mut lines = Lines::new(alloc)?;
    let mut asks = Vec::new(alloc);
    loop {
        match take(alloc, Addressing::Numbered, &mut lines, src) {
            Ok(Some(asked)) => asks.push(asked)?,
            Ok(None) => return Ok(Script { asks, end: Ok(()) }),
            Err(halt) => match halt {
                Halt::NoMemory => return Err(AllocError),
                _ => return Ok(Script {
                    asks,
                    end: Err(halt),
                }),
            },
        }
    }
}
