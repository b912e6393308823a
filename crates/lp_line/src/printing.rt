// Replies as they are written.
ghost use Rattle.std.specs.Prelude.{◌≡◌, ◌++◌, ◌∷◌, [], OnOk, OnErr};
ghost use Rattle.spec_text.specs.Lines.{IsPrefixOf};
ghost use Rattle.spec_server.specs.Output as output;

use crate::answers::{push_found, push_known, push_number, push_numbered, push_past, push_verdict};
use crate::asks::Reply;
use crate::refusals::push_refusal;
use lp_base::{Bytes, Texts};
use spec_server::Addressing;
use std::alloc::{AllocError, Global};

// How many line feeds a text has, so how many lines that end in one.
#[tactic(auto, unfolding(spec_server::specs::Output::count_of_lines))]
fn count_of_lines(text: &[u8]) -> usize
    ensures { result ≡ output.count_of_lines text.now }
{
    let mut count = 0;
    for byte in text {
        if *byte == b'\n' {
            count += 1;
        }
    }
    count
}

// Adds the first line of a reply to a text, without its session and its line feed.
#[tactic(auto, unfolding(spec_server::specs::Output::reply_text))]
fn push_reply(alloc: Global, reply: &Reply, to: &mut Bytes) -> Result<(), AllocError>
    ensures { OnOk result (to.new ≡ to.old ++ output.reply_text reply.now) }
{
    match reply {
        Reply::Loaded(rows, columns) => {
            push_numbered(alloc, b"LOADED ", u64::from(*rows), to)?;
            push_numbered(alloc, b" ", u64::from(*columns), to)
        }
        Reply::Written(text) => {
            push_numbered(alloc, b"TEXT ", count_of_lines(text.as_slice()) as u64, to)
        }
        Reply::Done => to.extend(b"OK"),
        Reply::Known(known) => push_known(alloc, known, to),
        Reply::Past(past) => push_past(alloc, past, to),
        Reply::Spent(budget) => push_numbered(alloc, b"SPENT ", *budget, to),
        Reply::Certified(lines) => push_numbered(alloc, b"CERT ", lines.len() as u64, to),
        Reply::Found {
            how,
            pivots,
            publication,
        } => push_found(alloc, *how, *pivots, *publication, to),
        Reply::Checked(verdict) => push_verdict(alloc, verdict, to),
        Reply::Wide(lines) => push_numbered(alloc, b"WIDE ", lines.len() as u64, to),
        Reply::Bye => to.extend(b"BYE"),
        Reply::Memory => to.extend(b"MEMORY"),
        Reply::Refused(refusal) => {
            to.extend(b"ERR ")?;
            push_refusal(alloc, refusal, to)
        }
    }
}

// Adds the first line of a reply and a line feed to a text.
fn push_line(alloc: Global, reply: &Reply, to: &mut Bytes) -> Result<(), AllocError>
    ensures { OnOk result (to.new ≡ to.old ++ (output.reply_text reply.now ++ 10 ∷ [])) }
{
    push_reply(alloc, reply, to)?;
    to.extend(b"\n")
}

/// Adds lines to a text, each with a line feed behind it. After an `Err` a part of them may have been added.
#[tactic(auto, unfolding(spec_server::specs::Output::ended_lines))]
pub fn print_lines(lines: &Texts, to: &mut Bytes) -> Result<(), AllocError>
    ensures ok { OnOk result (to.new ≡ to.old ++ output.ended_lines lines.now) }
    ensures kept { IsPrefixOf to.old to.new }
{
    for index in 0..lines.len() {
        to.extend(lines.get(index).as_slice())?;
        to.push(b'\n')?;
    }
    Ok(())
}

// Adds the lines of a reply behind its first one to a text.
fn push_lines_behind(reply: &Reply, to: &mut Bytes) -> Result<(), AllocError>
    ensures { OnOk result (to.new ≡ to.old ++ output.lines_behind reply.now) }
{
    match reply {
        Reply::Written(text) => to.extend(text.as_slice()),
        Reply::Certified(lines) | Reply::Wide(lines) => print_lines(lines, to),
        Reply::Loaded(_, _)
        | Reply::Done
        | Reply::Known(_)
        | Reply::Past(_)
        | Reply::Spent(_)
        | Reply::Found { .. }
        | Reply::Checked(_)
        | Reply::Bye
        | Reply::Memory
        | Reply::Refused(_) => Ok(()),
    }
}

// Adds the session's number and a space to a text, if lines name sessions; else nothing.
fn push_front(
    alloc: Global,
    addressing: Addressing,
    session: u32,
    to: &mut Bytes,
) -> Result<(), AllocError>
    ensures { OnOk result (to.new ≡ to.old ++ output.front_of addressing session) }
{
    match addressing {
        Addressing::Numbered => {
            push_number(alloc, u64::from(session), to)?;
            to.extend(b" ")
        }
        Addressing::Alone => Ok(()),
    }
}

// Adds all lines of a session's reply to a text. After an `Err` a part of them may have been added.
#[tactic(auto, unfolding(spec_server::specs::Output::reply_lines))]
fn push_reply_lines(
    alloc: Global,
    addressing: Addressing,
    session: u32,
    reply: &Reply,
    to: &mut Bytes,
) -> Result<(), AllocError>
    ensures { OnOk result (to.new ≡ to.old ++ output.reply_lines addressing session reply.now) }
{
    push_front(alloc, addressing, session, to)?;
    push_line(alloc, reply, to)?;
    push_lines_behind(reply, to)
}

/// Adds the lines of a session's reply to a text, all of them or none.
pub fn print(
    alloc: Global,
    addressing: Addressing,
    session: u32,
    reply: &Reply,
    to: &mut Bytes,
) -> Result<(), AllocError>
    ensures ok { OnOk result (to.new ≡ to.old ++ output.reply_lines addressing session reply.now) }
    ensures err { OnErr result (to.new ≡ to.old) }
{
    let mut lines = Bytes::new(alloc);
    push_reply_lines(alloc, addressing, session, reply, &mut lines)?;
    to.extend(lines.as_slice())
}

/// Adds the line of a reply, without a session, to a text, as commands that read a text write it. Where memory runs
/// out, `to` stays as it was.
#[tactic(auto, unfolding(spec_server::specs::Output::check_line))]
pub fn print_said(alloc: Global, reply: &Reply, to: &mut Bytes) -> Result<(), AllocError>
    ensures ok { OnOk result (to.new ≡ to.old ++ output.check_line reply.now) }
    ensures err { OnErr result (to.new ≡ to.old) }
{
    let mut line = Bytes::new(alloc);
    push_line(alloc, reply, &mut line)?;
    to.extend(line.as_slice())
}
