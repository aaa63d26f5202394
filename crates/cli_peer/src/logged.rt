//! What a peer prints of a line of the log.

ghost use Rattle.std.specs.Prelude.{◌≡◌, All, IfErr, IfOk, OnErr, OnOk, option_map};
ghost use Rattle.std.specs.List.{flat_map};
ghost use Rattle.cli_lines.specs.Told.{Begins, IsBrokenOff, Prints, PrintsNothing, PrintsPart};
ghost use Rattle.cli_lines.specs.Told.{Tells};
ghost use Rattle.log_committer.specs.Committing.{block_at};
ghost use Rattle.log_peer.specs.Peering.{IsPeer, batches_in, held_by};
ghost use Rattle.cli_peer.specs.Filters.{PrintsSo};
ghost use Rattle.cli_peer.specs.Logged.{IsHandedOut, TellsEntry, TellsReport, TellsText};
ghost use Rattle.cli_peer.specs.Logged.{batch_text, block_text};
ghost use Rattle.cli_peer.specs.Printed.{joined_text};
ghost use Rattle.peer_answers.specs.Seen.{IsUnsigned, TellsFork, is_fork, sighting_of};

use crate::aborted::print_aborted;
use crate::explaining::explain_skip;
use crate::forks::{has_hash, print_unless};
use crate::joined::print_joined;
use cli_lines::{Failure, Files, Printer};
use endorsement_policy::Standing;
use fab_types::CommittedBlock;
use log_committer::Received;
use log_peer::{LogPeer, PeerBatch, PeerReport};
use peer_answers::{
    Entry, LogGenesis, Seen, SignedSeen, has_public_key, is_signed, seen_in, signed_seen_in,
};
use std::alloc::{AllocError, Global};
use std::io::Write;
use store_devices::StoreFile;
use world_state::Past;

/// A log, and a peer that has read a line of it, by which is told what the line came to.
#[derive(Drop)]
pub(crate) struct Telling<'a, D: Drop> {
    pub alloc: Global,
    pub log: &'a LogGenesis,
    pub peer: &'a LogPeer<D>,
}

impl<D: StoreFile> Telling<'_, D> {
    /// Prints what the entry of a line of the input came to, and that it was read.
    pub(crate) fn print_entry<F: Files, W: Write>(
        &self,
        files: &mut F,
        line: u64,
        entry: &Entry<'_>,
        report: &PeerReport,
        out: &mut Printer<'_, W>,
    ) -> Result<(), Failure>
        requires stored { IsPeer self.now.peer.now }
        requires joined { All (IsHandedOut (held_by self.now.peer.now).chain)
            (batches_in report.now) }
        ensures prints { OnOk result (PrintsSo
            (TellsEntry self.now.log.now (held_by self.now.peer.now) entry.now.index.now
            entry.now.text.now report.now) out.old out.new) }
        ensures begins { Begins
            (TellsEntry self.now.log.now (held_by self.now.peer.now) entry.now.index.now
            entry.now.text.now report.now) out.old out.new result }
        ensures tells { Tells out.old out.new result }
        ensures lost { IfErr result IsBrokenOff }
        ensures kept { F.bytes files.new ≡ F.bytes files.old }
    {
        self.print_report(files, line, entry, report, out)?;
        writeln!(out, "read {} {}", entry.index, self.peer.waiting())
    }

    /// Prints what the entry of a line of the input came to.
    fn print_report<F: Files, W: Write>(
        &self,
        files: &mut F,
        line: u64,
        entry: &Entry<'_>,
        report: &PeerReport,
        out: &mut Printer<'_, W>,
    ) -> Result<(), Failure>
        requires stored { IsPeer self.now.peer.now }
        requires joined { All (IsHandedOut (held_by self.now.peer.now).chain)
            (batches_in report.now) }
        ensures prints { OnOk result (PrintsSo
            (TellsReport self.now.log.now (held_by self.now.peer.now) entry.now.index.now
            entry.now.text.now report.now) out.old out.new) }
        ensures begins { Begins
            (TellsReport self.now.log.now (held_by self.now.peer.now) entry.now.index.now
            entry.now.text.now report.now) out.old out.new result }
        ensures tells { Tells out.old out.new result }
        ensures lost { IfErr result IsBrokenOff }
        ensures kept { F.bytes files.new ≡ F.bytes files.old }
    {
        match report {
            PeerReport::Accepted { id: _, batches } => self.print_batches(batches.as_slice(), out),
            PeerReport::Ticked(None) => Ok(()),
            PeerReport::Ticked(Some(batch)) => self.print_batch(batch, out),
            PeerReport::Skipped(skip) => {
                self.print_seen(entry.text, out)?;
                explain_skip(self.alloc, files, line, entry.text, *skip);
                writeln!(out, "skipped {} {skip}", entry.index)
            }
        }
    }

    /// Prints what the batches that a line ended came to.
    fn print_batches<W: Write>(
        &self,
        batches: &[PeerBatch],
        out: &mut Printer<'_, W>,
    ) -> Result<(), Failure>
        requires joined { All (IsHandedOut (held_by self.now.peer.now).chain) batches.now }
        ensures prints { OnOk result
            (Prints out.old out.new (flat_map (batch_text (held_by self.now.peer.now).chain)
            batches.now)) }
        ensures part { OnErr result
            (PrintsPart out.old out.new (flat_map (batch_text (held_by self.now.peer.now).chain)
            batches.now)) }
        ensures tells { Tells out.old out.new result }
        ensures lost { IfErr result IsBrokenOff }
    {
        for batch in batches {
            self.print_batch(batch, out)?;
        }
        Ok(())
    }

    /// Prints which transactions a batch leaves out, and what became of its block.
    fn print_batch<W: Write>(
        &self,
        batch: &PeerBatch,
        out: &mut Printer<'_, W>,
    ) -> Result<(), Failure>
        requires joined { IsHandedOut (held_by self.now.peer.now).chain batch.now }
        ensures prints { OnOk result
            (Prints out.old out.new (batch_text (held_by self.now.peer.now).chain batch.now)) }
        ensures part { OnErr result
            (PrintsPart out.old out.new (batch_text (held_by self.now.peer.now).chain batch.now)) }
        ensures tells { Tells out.old out.new result }
        ensures lost { IfErr result IsBrokenOff }
    {
        let causes = batch.report.aborted.as_slice();
        print_aborted(self.alloc, batch.aborted.as_slice(), causes, out)?;
        self.print_block(batch, out)
    }

    /// Prints what became of the block of a batch, if it has one.
    fn print_block<W: Write>(
        &self,
        batch: &PeerBatch,
        out: &mut Printer<'_, W>,
    ) -> Result<(), Failure>
        requires joined { IsHandedOut (held_by self.now.peer.now).chain batch.now }
        ensures prints { OnOk result
            (Prints out.old out.new (block_text (held_by self.now.peer.now).chain
            batch.now.report.block batch.now.received)) }
        ensures part { OnErr result
            (PrintsPart out.old out.new (block_text (held_by self.now.peer.now).chain
            batch.now.report.block batch.now.received)) }
        ensures tells { Tells out.old out.new result }
        ensures lost { IfErr result IsBrokenOff }
    {
        match (batch.report.block, batch.received) {
            (Some(number), Some(Received::Committed)) => {
                self.print_committed(number, batch.joined.as_ref(), out)
            }
            (Some(number), Some(Received::Known)) => writeln!(out, "known {number}"),
            _ => Ok(()),
        }
    }

    /// Prints the block of a number, which joined the chain.
    fn print_committed<W: Write>(
        &self,
        number: u32,
        joined: Option<&CommittedBlock>,
        out: &mut Printer<'_, W>,
    ) -> Result<(), Failure>
        requires joined { option_map (λ c. c.now) joined
            ≡ block_at (held_by self.now.peer.now).chain number }
        ensures prints { OnOk result
            (Prints out.old out.new (joined_text number (block_at (held_by self.now.peer.now).chain
            number))) }
        ensures part { OnErr result
            (PrintsPart out.old out.new (joined_text number (block_at (held_by
            self.now.peer.now).chain number))) }
        ensures tells { Tells out.old out.new result }
        ensures lost { IfErr result IsBrokenOff }
    {
        match joined {
            Some(block) => print_joined(self.alloc, number, block, out),
            None => Ok(()),
        }
    }

    /// Prints whether a text by which an organisation says that it has a block tells of a fork, if
    /// it is one. Who signed is judged by the chain. Without a signature it counts where the
    /// genesis gives no public key, by the blocks that the lines made.
    fn print_seen<W: Write>(&self, text: &str, out: &mut Printer<'_, W>) -> Result<(), Failure>
        requires stored { IsPeer self.now.peer.now }
        ensures prints { OnOk result (PrintsSo
            (TellsText self.now.log.now (held_by self.now.peer.now) text.now) out.old out.new) }
        ensures nothing { OnErr result (PrintsNothing out.old out.new) }
        ensures tells { Tells out.old out.new result }
        ensures lost { IfErr result IsBrokenOff }
    {
        match seen_in(text) {
            None => Ok(()),
            Some(seen) => match seen.signature {
                Some(_) => self.print_signed(text, out),
                None => self.print_unsigned(&seen, out),
            },
        }
    }

    /// Prints that an organisation has another block than the lines made, if that is so and it has
    /// no public key to sign it.
    fn print_unsigned<W: Write>(
        &self,
        seen: &Seen<'_>,
        out: &mut Printer<'_, W>,
    ) -> Result<(), Failure>
        ensures prints { OnOk result (PrintsSo
            (IsUnsigned self.now.log.now.genesis.rules.value (held_by self.now.peer.now).log.chain
            (sighting_of seen.now)) out.old out.new) }
        ensures nothing { OnErr result (PrintsNothing out.old out.new) }
        ensures tells { Tells out.old out.new result }
        ensures lost { IfErr result IsBrokenOff }
    {
        let public = has_public_key(&self.log.genesis.rules, seen.org);
        let known = self.peer.has_header(seen.number, &seen.hash);
        print_unless(public || known, seen.org, seen.number, out)
    }

    /// Prints that an organisation has signed that it has another block than the chain's, if a text
    /// says so.
    fn print_signed<W: Write>(&self, text: &str, out: &mut Printer<'_, W>) -> Result<(), Failure>
        requires stored { IsPeer self.now.peer.now }
        ensures prints { OnOk result (PrintsSo
            (TellsFork self.now.log.now.genesis.rules.value self.now.log.now.digest (held_by
            self.now.peer.now).chain text.now) out.old out.new) }
        ensures nothing { OnErr result (PrintsNothing out.old out.new) }
        ensures tells { Tells out.old out.new result }
        ensures lost { IfErr result IsBrokenOff }
    {
        match signed_seen_in(text) {
            None => Ok(()),
            Some(seen) => {
                let fork = self.is_fork(&seen)?;
                let org = String::from_utf8_lossy(self.alloc, seen.org.as_slice())?;
                print_unless(!fork, &org, seen.number, out)
            }
        }
    }

    /// Whether a block that is said to be seen is told as a fork: the chain has another one of its
    /// number, or none, and it is signed by who stands behind the chain. The signature is judged
    /// last.
    fn is_fork(&self, seen: &SignedSeen) -> Result<bool, AllocError>
        requires stored { IsPeer self.now.peer.now }
        ensures { IfOk result
            (λ fork. fork ≡ is_fork self.now.log.now.genesis.rules.value self.now.log.now.digest
            (held_by self.now.peer.now).chain seen.now) }
    {
        if has_hash(self.peer.hash(seen.number), &seen.hash) {
            return Ok(false);
        }
        let state = self.peer.chain().map();
        let standing = Standing::in_state(self.alloc, &self.log.genesis.rules, state)?;
        is_signed(self.alloc, &standing, &self.log.digest, seen)
    }
}
