// How links ended, as it is written.
ghost use Rattle.std.specs.Prelude.{◌≡◌, ◌++◌, ◌⊎◌, map, OnOk, IfOk, IfErr, IsErrOf};
ghost use Rattle.std.specs.Io.KnownBytes.{Appends};
ghost use Rattle.lp_base.specs.Beside.{Takes};
ghost use Rattle.lp_base.specs.Causes.{Rose};
ghost use Rattle.lp_serve.specs.Desks.{ends_in};
ghost use Rattle.spec_serve.specs.Lines.{end_text, end_line, end_lines, serve_out};

use crate::desk::Desk;
use crate::fault::ServeFault;
use lp_base::{Bytes, Sink, send};
use spec_serve::LinkEnd;
use std::alloc::{AllocError, Global};

/// How a link ended, in a word.
pub(crate) fn word(end: LinkEnd) -> &'static str
    ensures { result.now ≡ end_text end }
{
    match end {
        LinkEnd::Done => "DONE",
        LinkEnd::Read => "READ",
        LinkEnd::Write => "WRITE",
        LinkEnd::Cut => "CUT",
        LinkEnd::Over => "OVER",
        LinkEnd::NoMemory => "MEMORY",
    }
}

// Appends the line of a link: its worker's number, its own number, and the word for how it ended.
#[tactic(auto, unfolding(spec_serve::specs::Lines::end_line))]
fn print_end(
    alloc: Global,
    worker: u64,
    link: u64,
    end: LinkEnd,
    to: &mut Bytes,
) -> Result<(), AllocError>
    ensures { OnOk result (to.new ≡ to.old ++ end_line worker link end) }
{
    let word = word(end);
    let line = format!(in alloc; "{worker} {link} {word}\n")?;
    to.extend(line.as_bytes())
}

// Appends the lines of one worker's links, which are numbered from 1.
fn print_ends(
    alloc: Global,
    worker: u64,
    ends: &[LinkEnd],
    to: &mut Bytes,
) -> Result<(), AllocError>
    ensures { OnOk result (to.new ≡ to.old ++ end_lines worker 1 ends.now) }
{
    for (index, end) in ends.iter().enumerate() {
        print_end(alloc, worker, index as u64 + 1, *end, to)?;
    }
    Ok(())
}

// How the links of all desks ended, where a desk is what one worker has of the server: a line for each link, with the
// numbers of its worker and of the link.
fn ends_text<N>(alloc: Global, desks: &[Desk<N>]) -> Result<Bytes, AllocError>
    ensures { IfOk result (λ text. text ≡ serve_out (map ends_in desks.now)) }
{
    let mut text = Bytes::new(alloc);
    for (index, desk) in desks.iter().enumerate() {
        print_ends(alloc, index as u64 + 1, desk.ends.as_slice(), &mut text)?;
    }
    Ok(text)
}

/// Writes a line for each link: its worker, its number, and how it ended.
pub(crate) fn write_ends<N, K: Sink>(
    alloc: Global,
    desks: &[Desk<N>],
    out: &mut K,
) -> Result<(), ServeFault>
    ensures ok { OnOk result (Appends (K.taken out.old) (K.taken out.new) (serve_out (map ends_in desks.now))) }
    ensures part { Takes (K.taken out.old) (K.taken out.new) (serve_out (map ends_in desks.now)) }
    ensures faults { IfErr result (λ fault. (fault ≡ ServeFault.Write) ⊎ (fault ≡ ServeFault.NoMemory)) }
    ensures write { IsErrOf result ServeFault.Write → Rose (K.write_faults out.old) (K.write_faults out.new) }
{
    let text = ends_text(alloc, desks)?;
    send(out, text.as_slice())?;
    Ok(())
}
