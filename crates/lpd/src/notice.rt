// What the program shows of itself on standard output.
ghost use Rattle.std.specs.Prelude.{◌≡◌, ◌⊎◌, IfOk, string_bytes};
ghost use Rattle.lp_base.specs.Causes.{Rose};
ghost use Rattle.lpd.specs.Notices.{IsTextOf, ShowsAll, ShowsPart};

use crate::usage::usage;
use lp_base::{Sink, send};
use lp_command_line::Notice;
use lp_top::ExitStatus;
use std::alloc::{AllocError, Global};

// The version is that of the file VERSION at the top of the repository.
const VERSION: &str = "lpd 0.1.0\n";

// The usage, or the line of the version. Memory may run out.
fn text_of(alloc: Global, notice: Notice) -> Result<String, AllocError>
    ensures { IfOk result (λ text. IsTextOf notice (string_bytes text)) }
{
    match notice {
        Notice::Usage => usage(alloc),
        Notice::Version => String::from_str(alloc, VERSION),
    }
}

/// Writes the usage, as clap lays it out, or the line of the version, and gives status 0. A failed write is status 4,
/// and lack of memory 5.
pub fn show<K: Sink>(alloc: Global, notice: Notice, out: &mut K) -> ExitStatus
    ensures codes { (result.code ≡ 0) ⊎ (result.code ≡ 4) ⊎ (result.code ≡ 5) }
    ensures all { result.code ≡ 0 → ShowsAll notice (K.taken out.old) (K.taken out.new) }
    ensures part { result.code ≡ 4 → ShowsPart notice (K.taken out.old) (K.taken out.new) }
    ensures nothing { result.code ≡ 5 → out.new ≡ out.old }
    ensures write { result.code ≡ 4 → Rose (K.write_faults out.old) (K.write_faults out.new) }
{
    let Ok(text) = text_of(alloc, notice) else {
        return ExitStatus::NO_MEMORY;
    };
    match send(out, text.as_bytes()) {
        Ok(()) => ExitStatus::DONE,
        Err(_) => ExitStatus::WRITE,
    }
}
