// The session of one link.
ghost use Rattle.std.specs.Prelude.{◌≡◌, ◌⊎◌, ◌≤◌, IfErr, OnOk, IsErrOf};
ghost use Rattle.std.specs.Io.KnownBytes.{Appends};
ghost use Rattle.basis_board.specs.Id.{id_of};
ghost use Rattle.basis_board.specs.Rule.{Consistent};
ghost use Rattle.lp_base.specs.Beside.{Takes};
ghost use Rattle.lp_base.specs.Causes.{Rose};
ghost use Rattle.lp_base.specs.LinesState.{at_start};
ghost use Rattle.lp_base.specs.LinkState.{sink_of, source_of};
ghost use Rattle.lp_serve.specs.Service.{ServesBy, TakesAsk};
ghost use Rattle.lp_session.specs.Boarding.{NotesOn};
ghost use Rattle.spec_serve.specs.Link as links;
ghost use Rattle.spec_server.specs.Halves.{at_rest};
ghost use Rattle.spec_server.specs.Machine.{opening};
ghost use Rattle.spec_server.specs.Output.{reply_lines};
ghost use Rattle.spec_server.specs.Streams.{streams};
ghost use Rattle.spec_server.specs.declared.addressing.Addressing.TheVariants.{Alone};

use basis_board::{Board, Pass};
use lp_base::{Bytes, Lines, Link, LinkWork, send};
use lp_line::{Addressing, Ask, Halt, Plain, Reply, print, take};
use lp_session::Session;
use spec_serve::LinkEnd;
use std::alloc::Global;

// Whether the request is `QUIT`, after whose reply the link ends.
fn is_quit(ask: &Ask) -> bool
    ensures { result ≡ links.is_quit ask.now }
{
    match ask {
        Ask::Plain(Plain::Quit) => true,
        _ => false,
    }
}

// Reads the next request. Where none comes, the error says how the link ends. `take` writes nothing, so no write ends
// it (its clause `taken`).
fn next_ask<L: Link>(alloc: Global, lines: &mut Lines, link: &mut L) -> Result<Ask, LinkEnd>
    ensures asks { TakesAsk (L.left link.old) (L.left link.new) lines.old lines.new result }
    ensures cause { (L.read_faults link.old ≤ L.read_faults link.new)
        × (IsErrOf result LinkEnd.Read → Rose (L.read_faults link.old) (L.read_faults link.new)) }
    ensures beside { sink_of (L.taken link.new) (L.write_faults link.new)
        ≡ sink_of (L.taken link.old) (L.write_faults link.old) }
{
    match take(alloc, Addressing::Alone, lines, link) {
        Ok(Some(asked)) => Ok(asked.ask),
        Ok(None) => Err(LinkEnd::Done),
        Err(Halt::Cut) => Err(LinkEnd::Cut),
        Err(Halt::Over) => Err(LinkEnd::Over),
        Err(Halt::Read) => Err(LinkEnd::Read),
        Err(Halt::NoMemory) => Err(LinkEnd::NoMemory),
        Err(Halt::Write) => unreachable!(),
    }
}

// Writes the lines of a reply to the link.
fn send_reply<L: Link>(alloc: Global, reply: &Reply, link: &mut L) -> Result<(), LinkEnd>
    ensures ok { OnOk result (Appends (L.taken link.old) (L.taken link.new) (reply_lines Alone 0 reply.now)) }
    ensures part { Takes (L.taken link.old) (L.taken link.new) (reply_lines Alone 0 reply.now) }
    ensures ends { IfErr result (λ end. (end ≡ LinkEnd.Write) ⊎ (end ≡ LinkEnd.NoMemory)) }
    ensures cause { (L.write_faults link.old ≤ L.write_faults link.new)
        × (IsErrOf result LinkEnd.Write → Rose (L.write_faults link.old) (L.write_faults link.new)) }
    ensures beside { source_of (L.left link.new) (L.read_faults link.new)
        ≡ source_of (L.left link.old) (L.read_faults link.old) }
{
    let mut line = Bytes::new(alloc);
    if print(alloc, Addressing::Alone, 0, reply, &mut line).is_err() {
        return Err(LinkEnd::NoMemory);
    }
    match send(link, line.as_slice()) {
        Ok(()) => Ok(()),
        Err(_) => Err(LinkEnd::Write),
    }
}

// Adds to the work one command, which got this reply. If the reply is what `SOLVE` ended with, the pivots and flips of
// the session's last answer are added too.
fn count(work: &mut LinkWork, reply: &Reply, session: &Session) {
    work.commands = work.commands.saturating_add(1);
    if let Reply::Known(_) | Reply::Past(_) | Reply::Spent(_) = reply {
        let pivots = session.pivots().unwrap_or(0);
        work.pivots = work.pivots.saturating_add(pivots);
    }
}

// Answers the requests of a link, from the start of its lines and of its session, until it is asked to quit, no more
// comes, or something fails. It gives how the link ended, and adds to the work what was done.
fn serve_asks<L: Link>(
    alloc: Global,
    link: &mut L,
    board: &Board,
    pass: &mut Pass,
    lines: &mut Lines,
    session: &mut Session,
    work: &mut LinkWork,
) -> LinkEnd
    requires board { pass.old.board ≡ id_of board.now }
    requires lines { lines.old ≡ at_start }
    requires session { session.old ≡ at_rest opening }
    ensures serves { ServesBy
        (streams (L.left link.old) (L.left link.new) (L.taken link.old) (L.taken link.new))
        pass.old.view pass.new.view result }
    ensures read { (L.read_faults link.old ≤ L.read_faults link.new)
        × (result ≡ LinkEnd.Read → Rose (L.read_faults link.old) (L.read_faults link.new)) }
    ensures write { (L.write_faults link.old ≤ L.write_faults link.new)
        × (result ≡ LinkEnd.Write → Rose (L.write_faults link.old) (L.write_faults link.new)) }
    ensures board { pass.new.board ≡ pass.old.board }
    ensures consistent { Consistent pass.old.view → Consistent pass.new.view }
    ensures share { (pass.new.view).share ≡ (pass.old.view).share }
    ensures notes { NotesOn pass.old pass.new }
{
    loop {
        let ask = match next_ask(alloc, lines, link) {
            Ok(ask) => ask,
            Err(end) => return end,
        };
        let quits = is_quit(&ask);
        let reply = session.step(alloc, board, pass, ask);
        count(work, &reply, session);
        let sent = send_reply(alloc, &reply, link);
        drop(reply);
        if let Err(end) = sent {
            return end;
        }
        if quits {
            return LinkEnd::Done;
        }
    }
}

/// Serves the session of a link over a board that others may share: each reply is sent before the next command is read.
/// It gives how the link ended. It adds to the work what is done, of which no clause speaks.
pub fn serve_link<L: Link>(
    alloc: Global,
    link: &mut L,
    board: &Board,
    pass: &mut Pass,
    work: &mut LinkWork,
) -> LinkEnd
    requires board { pass.old.board ≡ id_of board.now }
    ensures serves { ServesBy
        (streams (L.left link.old) (L.left link.new) (L.taken link.old) (L.taken link.new))
        pass.old.view pass.new.view result }
    ensures read { (L.read_faults link.old ≤ L.read_faults link.new)
        × (result ≡ LinkEnd.Read → Rose (L.read_faults link.old) (L.read_faults link.new)) }
    ensures write { (L.write_faults link.old ≤ L.write_faults link.new)
        × (result ≡ LinkEnd.Write → Rose (L.write_faults link.old) (L.write_faults link.new)) }
    ensures board { pass.new.board ≡ pass.old.board }
    ensures consistent { Consistent pass.old.view → Consistent pass.new.view }
    ensures share { (pass.new.view).share ≡ (pass.old.view).share }
    ensures notes { NotesOn pass.old pass.new }
{
    let Ok(mut lines) = Lines::new(alloc) else {
        return LinkEnd::NoMemory;
    };
    let mut session = Session::new();
    let end = serve_asks(alloc, link, board, pass, &mut lines, &mut session, work);
    drop(session);
    drop(lines);
    end
}
