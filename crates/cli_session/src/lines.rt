//! What the program prints of a system and its blocks.

ghost use Rattle.std.specs.Prelude.{◌≡◌, Ok, IfErr, IfOk, IsOkAnd, OnErr, OnOk, map, string_bytes};
ghost use Rattle.std.specs.List.{flat_map};
ghost use Rattle.std.specs.Map.Iter.{deref_pair};
ghost use Rattle.fabric_core.specs.declared.event.Reply.{Reply};
ghost use Rattle.cli_lines.specs.Told.{IsBrokenOff, Prints, PrintsNothing, PrintsPart, Tells};
ghost use Rattle.cli_session.specs.Replies.{begin_text, endorsed_text, reply_text};
ghost use Rattle.cli_session.specs.States.{entry_text, state_text};

use crate::replies::ReplyText;
use cli_lines::{Failure, Printer, hex_of, id_of, version_of};
use fab_types::{Key, Payload, Value, Version};
use fabric_core::Reply;
use std::alloc::{AllocError, Global};
use std::io::Write;
use world_state::Snapshot;

/// Prints each key of the state with its version and value, in key order.
pub(crate) fn print_state<W: Write>(
    alloc: Global,
    snapshot: &Snapshot,
    out: &mut Printer<'_, W>,
) -> Result<(), Failure>
    ensures tells { Tells out.old out.new result }
    ensures lost { IfErr result IsBrokenOff }
    ensures prints { OnOk result (Prints out.old out.new (state_text snapshot.now)) }
    ensures part { OnErr result (PrintsPart out.old out.new (state_text snapshot.now)) }
{
    let entries = snapshot.entries(alloc)?;
    print_entries(alloc, &entries, out)
}

/// Prints these entries of a state.
fn print_entries<W: Write>(
    alloc: Global,
    entries: &[(&Key, &(Value, Version))],
    out: &mut Printer<'_, W>,
) -> Result<(), Failure>
    ensures tells { Tells out.old out.new result }
    ensures lost { IfErr result IsBrokenOff }
    ensures prints { OnOk result
        (Prints out.old out.new (flat_map entry_text (map deref_pair entries.now))) }
    ensures part { OnErr result
        (PrintsPart out.old out.new (flat_map entry_text (map deref_pair entries.now))) }
{
    for (key, entry) in entries {
        print_entry(alloc, key, &entry.0, entry.1, out)?;
    }
    Ok(())
}

/// Prints a key of the state with its version and value.
fn print_entry<W: Write>(
    alloc: Global,
    key: &Key,
    value: &Value,
    version: Version,
    out: &mut Printer<'_, W>,
) -> Result<(), Failure>
    ensures tells { Tells out.old out.new result }
    ensures lost { IfErr result IsBrokenOff }
    ensures prints { OnOk result
        (Prints out.old out.new (entry_text (key.now, (value.now, version)))) }
    ensures nothing { OnErr result (PrintsNothing out.old out.new) }
{
    let key = hex_of(alloc, key.as_slice())?;
    let version = version_of(alloc, version)?;
    let value = hex_of(alloc, value.as_slice())?;
    writeln!(out, "state {key} {version} {value}")
}

/// Prints a reply. Of one with the height of a begin or with a payload, nothing.
pub(crate) fn print_reply<W: Write>(reply: &Reply, out: &mut Printer<'_, W>) -> Result<(), Failure>
    ensures tells { Tells out.old out.new result }
    ensures lost { IfErr result IsBrokenOff }
    ensures prints { OnOk result (Prints out.old out.new (reply_text reply.now)) }
    ensures nothing { OnErr result (PrintsNothing out.old out.new) }
{
    write!(out, "{}", ReplyText(reply))
}

/// Prints a reply to a begin at a seat: where, and on what height, if it was begun.
fn print_begin<W: Write>(
    peer: usize,
    seat: usize,
    reply: &Reply,
    out: &mut Printer<'_, W>,
) -> Result<(), Failure>
    ensures tells { Tells out.old out.new result }
    ensures lost { IfErr result IsBrokenOff }
    ensures prints { OnOk result (Prints out.old out.new (begin_text peer seat reply.now)) }
    ensures nothing { OnErr result (PrintsNothing out.old out.new) }
{
    match reply {
        Reply::Begun(height) => writeln!(out, "begun {peer}.{seat} at {height}"),
        reply => print_reply(reply, out),
    }
}

/// The line of an endorsed payload: its name and its id.
pub(crate) fn endorsed_line(
    alloc: Global,
    name: &str,
    payload: &Payload,
) -> Result<String, AllocError>
    ensures { IfOk result (λ text. string_bytes text ≡ endorsed_text name.now payload.now) }
{
    let id = id_of(alloc, payload)?;
    format!(in alloc; "endorsed {name} {id}\n")
}

/// Prints the reply to a step, which is looked at where it stands: a reply that is moved is dear to
/// prove.
pub(crate) fn print_step<W: Write>(
    reply: &Result<Reply, AllocError>,
    out: &mut Printer<'_, W>,
) -> Result<(), Failure>
    ensures tells { Tells out.old out.new result }
    ensures lost { IfErr result IsBrokenOff }
    ensures prints { OnOk result
        ((r : Reply) × (reply.now ≡ Ok r) × Prints out.old out.new (reply_text r)) }
    ensures nothing { OnErr result (PrintsNothing out.old out.new) }
{
    match reply {
        Ok(reply) => print_reply(reply, out),
        Err(_) => Err(Failure::Memory),
    }
}

/// The same of a begin at a seat.
pub(crate) fn print_begun<W: Write>(
    peer: usize,
    seat: usize,
    reply: &Result<Reply, AllocError>,
    out: &mut Printer<'_, W>,
) -> Result<(), Failure>
    ensures tells { Tells out.old out.new result }
    ensures lost { IfErr result IsBrokenOff }
    ensures prints { OnOk result
        ((r : Reply) × (reply.now ≡ Ok r) × Prints out.old out.new (begin_text peer seat r)) }
    ensures nothing { OnErr result (PrintsNothing out.old out.new) }
{
    match reply {
        Ok(reply) => print_begin(peer, seat, reply, out),
        Err(_) => Err(Failure::Memory),
    }
}

/// Prints the line of a payload that was bound to its name, where both could be done.
pub(crate) fn print_bound<W: Write>(
    line: &Result<String, AllocError>,
    bound: Result<(), AllocError>,
    out: &mut Printer<'_, W>,
) -> Result<(), Failure>
    ensures tells { Tells out.old out.new result }
    ensures lost { IfErr result IsBrokenOff }
    ensures bound { OnOk result (bound ≡ Ok tt) }
    ensures prints { OnOk result
        (IsOkAnd line.now (λ text. Prints out.old out.new (string_bytes text))) }
    ensures nothing { OnErr result (PrintsNothing out.old out.new) }
{
    match (line, bound) {
        (Ok(line), Ok(())) => write!(out, "{line}"),
        _ => Err(Failure::Memory),
    }
}
