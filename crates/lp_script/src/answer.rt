// The reply of a session, written.
ghost use Rattle.std.specs.Prelude.{◌≡◌, ◌⊎◌, ◌≤◌, OnOk, IfErr, IsErrOf};
ghost use Rattle.std.specs.Io.KnownBytes.{Appends};
ghost use Rattle.lp_base.specs.Beside.{Takes};
ghost use Rattle.lp_base.specs.Causes.{Rose};
ghost use Rattle.spec_server.specs.declared.addressing.Addressing.TheVariants.{Numbered};
ghost use Rattle.spec_server.specs.Output.{reply_lines};

use lp_base::{Bytes, Sink, send};
use lp_line::{Addressing, Halt, Reply, print};
use std::alloc::Global;

/// Sends the lines of a session's reply, with the session's number.
pub(crate) fn write_reply<K: Sink>(
    alloc: Global,
    session: u32,
    reply: &Reply,
    out: &mut K,
) -> Result<(), Halt>
    ensures ok { OnOk result (Appends (K.taken out.old) (K.taken out.new) (reply_lines Numbered session reply.now)) }
    ensures part { Takes (K.taken out.old) (K.taken out.new) (reply_lines Numbered session reply.now) }
    ensures halts { IfErr result (λ halt. (halt ≡ Halt.Write) ⊎ (halt ≡ Halt.NoMemory)) }
    ensures later { K.write_faults out.old ≤ K.write_faults out.new }
    ensures write { IsErrOf result Halt.Write → Rose (K.write_faults out.old) (K.write_faults out.new) }
{
    let mut line = Bytes::new(alloc);
    print(alloc, Addressing::Numbered, session, reply, &mut line)?;
    send(out, line.as_slice())?;
    Ok(())
}
