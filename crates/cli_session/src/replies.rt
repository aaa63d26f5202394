//! The text of a reply.

ghost use Rattle.std.specs.Fmt.{WritesOnOk};
ghost use Rattle.std.specs.List.{flat_map};
ghost use Rattle.cli_session.specs.Replies.{aborted_text, batch_text, made_text};

use cli_lines::CommittedText;
use fabric_core::Reply;
use orderer::{AbortCause, BatchReport};
use std::fmt::{self, Display, Formatter, Write};

/// What the program prints of a reply, as one text with its end. Of one with the height of a begin or
/// with a payload, nothing.
#[derive(Clone, Copy)]
pub(crate) struct ReplyText<'a>(pub(crate) &'a Reply);

impl Display for ReplyText<'_> {
    ghost use Rattle.std.specs.Prelude.{Some};
    ghost use Rattle.cli_session.specs.Replies.{reply_text};

    ghost output = { λ t. Some (reply_text t.0.now) };

    fn fmt<W: Write>(&self, f: &mut Formatter<W>) -> fmt::Result {
        match self.0 {
            Reply::Queued => writeln!(f, "queued"),
            Reply::Nothing => writeln!(f, "none"),
            Reply::Ordered(reports) => {
                writeln!(f, "taken")?;
                write_batches(reports.as_slice(), f)
            }
            Reply::Cut(report) => write_batch(report, f),
            Reply::Committed(number, flags) => {
                let (number, flags) = (*number, flags.as_slice());
                write!(f, "{}", CommittedText { number, flags })
            }
            Reply::Refused(refusal) => writeln!(f, "{refusal}"),
            reply => match reply.number() {
                Some(number) => writeln!(f, "refused {number}"),
                None => Ok(()),
            },
        }
    }
}

/// Writes batches, one after another.
fn write_batches<W: Write>(reports: &[BatchReport], f: &mut Formatter<W>) -> fmt::Result
    ensures { WritesOnOk W.write_str_gives f.old result (flat_map batch_text reports.now) f.new }
{
    for report in reports {
        write_batch(report, f)?;
    }
    Ok(())
}

/// Writes the block of a batch, where it made one, and what was aborted.
fn write_batch<W: Write>(report: &BatchReport, f: &mut Formatter<W>) -> fmt::Result
    ensures { WritesOnOk W.write_str_gives f.old result (batch_text report.now) f.new }
{
    write_made(report.block, report.count, f)?;
    write_aborted(report.aborted.as_slice(), f)
}

/// Writes the block of a batch, where it made one, with its count of transactions.
fn write_made<W: Write>(block: Option<u32>, count: usize, f: &mut Formatter<W>) -> fmt::Result
    ensures { WritesOnOk W.write_str_gives f.old result (made_text block count) f.new }
{
    match block {
        Some(number) => writeln!(f, "block {number} txs {count}"),
        None => writeln!(f, "no block"),
    }
}

/// Writes which transactions were aborted, and why.
fn write_aborted<W: Write>(aborted: &[(u16, AbortCause)], f: &mut Formatter<W>) -> fmt::Result
    ensures { WritesOnOk W.write_str_gives f.old result (flat_map aborted_text aborted.now) f.new }
{
    for (index, cause) in aborted {
        writeln!(f, "aborted {index} {cause}")?;
    }
    Ok(())
}
