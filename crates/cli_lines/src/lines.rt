//! Lines, and what the program prints of a transaction, and of a block that was committed.

ghost use Rattle.std.specs.Prelude.{◌≡◌, ◌<◌, true, IfErr, IfOk, OnErr, OnOk, string_bytes};
ghost use Rattle.std.specs.Io.KnownBytes.{Appends};
ghost use Rattle.std.specs.List.{flat_map};
ghost use Rattle.cli_lines.specs.Lines.{committed_text, head_text, hex_text, id_text, payload_text, range_text, read_text, version_text, write_text};
ghost use Rattle.cli_lines.specs.Texts.{line};
ghost use Rattle.cli_lines.specs.Told.{IsBrokenOff, Prints, PrintsNothing, PrintsPart, Tells};

use crate::committed::CommittedText;
use crate::failure::Failure;
use crate::printer::Printer;
use fab_types::{Flag, Payload, RangeItem, ReadItem, Version, WriteItem};
use std::alloc::{AllocError, Global};
use std::io::Write;
use wire::payload_id;

/// Prints a text and the line's end.
pub fn print_line<W: Write>(text: &String, out: &mut Printer<'_, W>) -> Result<(), Failure>
    ensures tells { Tells out.old out.new result }
    ensures lost { IfErr result IsBrokenOff }
    ensures printed { OnOk result (out.old.printed < out.new.printed) }
    ensures failed { OnErr result (out.new.failed ≡ true) }
    ensures line { OnOk result
        (Appends out.old.bytes out.new.bytes (line (string_bytes text.now))) }
    ensures nothing { OnErr result (PrintsNothing out.old out.new) }
{
    writeln!(out, "{text}")
}

/// Bytes as lower-case hex; `-` where there are none.
pub fn hex_of(alloc: Global, bytes: &[u8]) -> Result<String, AllocError>
    ensures { IfOk result (λ text. string_bytes text ≡ hex_text bytes.now) }
{
    if bytes.is_empty() {
        return String::from_str(alloc, "-");
    }
    hex::encode(alloc, bytes)
}

/// The id of the transaction that a payload's proposal begins, in hex.
pub fn id_of(alloc: Global, payload: &Payload) -> Result<String, AllocError>
    ensures { IfOk result (λ text. string_bytes text ≡ id_text payload.now) }
{
    hex::encode(alloc, payload_id(payload))
}

/// A version as `<block>.<place>`.
pub fn version_of(alloc: Global, version: Version) -> Result<String, AllocError>
    ensures { IfOk result (λ text. string_bytes text ≡ version_text version) }
{
    let (block, place) = (version.block(), version.place());
    format!(in alloc; "{block}.{place}")
}

fn print_read<W: Write>(
    alloc: Global,
    read: &ReadItem,
    out: &mut Printer<'_, W>,
) -> Result<(), Failure>
    ensures tells { Tells out.old out.new result }
    ensures lost { IfErr result IsBrokenOff }
    ensures prints { OnOk result (Prints out.old out.new (read_text read.now)) }
    ensures nothing { OnErr result (PrintsNothing out.old out.new) }
{
    let key = hex_of(alloc, read.key.as_slice())?;
    match read.version {
        Some(version) => {
            let version = version_of(alloc, version)?;
            writeln!(out, "read {key} {version}")
        }
        None => writeln!(out, "read {key} absent"),
    }
}

fn print_range<W: Write>(
    alloc: Global,
    range: &RangeItem,
    out: &mut Printer<'_, W>,
) -> Result<(), Failure>
    ensures tells { Tells out.old out.new result }
    ensures lost { IfErr result IsBrokenOff }
    ensures prints { OnOk result (Prints out.old out.new (range_text range.now)) }
    ensures nothing { OnErr result (PrintsNothing out.old out.new) }
{
    let start = hex_of(alloc, range.start().as_slice())?;
    let end = hex_of(alloc, range.end().as_slice())?;
    let (limit, entries) = (range.limit(), range.entries().len());
    writeln!(out, "range {start} {end} {limit} {entries}")
}

fn print_write<W: Write>(
    alloc: Global,
    write: &WriteItem,
    out: &mut Printer<'_, W>,
) -> Result<(), Failure>
    ensures tells { Tells out.old out.new result }
    ensures lost { IfErr result IsBrokenOff }
    ensures prints { OnOk result (Prints out.old out.new (write_text write.now)) }
    ensures nothing { OnErr result (PrintsNothing out.old out.new) }
{
    let key = hex_of(alloc, write.key.as_slice())?;
    match &write.value {
        Some(value) => {
            let value = hex_of(alloc, value.as_slice())?;
            writeln!(out, "write {key} put {value}")
        }
        None => writeln!(out, "write {key} delete"),
    }
}

fn print_reads<W: Write>(
    alloc: Global,
    reads: &[ReadItem],
    out: &mut Printer<'_, W>,
) -> Result<(), Failure>
    ensures tells { Tells out.old out.new result }
    ensures lost { IfErr result IsBrokenOff }
    ensures prints { OnOk result (Prints out.old out.new (flat_map read_text reads.now)) }
    ensures part { OnErr result (PrintsPart out.old out.new (flat_map read_text reads.now)) }
{
    for read in reads {
        print_read(alloc, read, out)?;
    }
    Ok(())
}

fn print_ranges<W: Write>(
    alloc: Global,
    ranges: &[RangeItem],
    out: &mut Printer<'_, W>,
) -> Result<(), Failure>
    ensures tells { Tells out.old out.new result }
    ensures lost { IfErr result IsBrokenOff }
    ensures prints { OnOk result (Prints out.old out.new (flat_map range_text ranges.now)) }
    ensures part { OnErr result (PrintsPart out.old out.new (flat_map range_text ranges.now)) }
{
    for range in ranges {
        print_range(alloc, range, out)?;
    }
    Ok(())
}

fn print_writes<W: Write>(
    alloc: Global,
    writes: &[WriteItem],
    out: &mut Printer<'_, W>,
) -> Result<(), Failure>
    ensures tells { Tells out.old out.new result }
    ensures lost { IfErr result IsBrokenOff }
    ensures prints { OnOk result (Prints out.old out.new (flat_map write_text writes.now)) }
    ensures part { OnErr result (PrintsPart out.old out.new (flat_map write_text writes.now)) }
{
    for write in writes {
        print_write(alloc, write, out)?;
    }
    Ok(())
}

/// Prints a transaction's id and result.
fn print_head<W: Write>(
    alloc: Global,
    payload: &Payload,
    out: &mut Printer<'_, W>,
) -> Result<(), Failure>
    ensures tells { Tells out.old out.new result }
    ensures lost { IfErr result IsBrokenOff }
    ensures prints { OnOk result (Prints out.old out.new (head_text payload.now)) }
    ensures part { OnErr result (PrintsPart out.old out.new (head_text payload.now)) }
{
    let id = id_of(alloc, payload)?;
    let result = hex_of(alloc, payload.result().as_slice())?;
    writeln!(out, "tx {id}")?;
    writeln!(out, "result {result}")
}

/// Prints a transaction's id and result, and all that it read and writes.
pub fn print_payload<W: Write>(
    alloc: Global,
    payload: &Payload,
    out: &mut Printer<'_, W>,
) -> Result<(), Failure>
    ensures tells { Tells out.old out.new result }
    ensures lost { IfErr result IsBrokenOff }
    ensures prints { OnOk result (Prints out.old out.new (payload_text payload.now)) }
    ensures part { OnErr result (PrintsPart out.old out.new (payload_text payload.now)) }
{
    print_head(alloc, payload, out)?;
    print_reads(alloc, payload.reads().as_slice(), out)?;
    print_ranges(alloc, payload.ranges().as_slice(), out)?;
    print_writes(alloc, payload.writes().as_slice(), out)
}

/// Prints the number of a block that was committed, and its flags.
pub fn print_committed<W: Write>(
    number: usize,
    flags: &[Flag],
    out: &mut Printer<'_, W>,
) -> Result<(), Failure>
    ensures tells { Tells out.old out.new result }
    ensures lost { IfErr result IsBrokenOff }
    ensures prints { OnOk result (Prints out.old out.new (committed_text number flags.now)) }
    ensures failed { OnErr result (out.new.failed ≡ true) }
    ensures nothing { OnErr result (PrintsNothing out.old out.new) }
{
    write!(out, "{}", CommittedText { number, flags })
}
