//! The orderer.

ghost use Rattle.std.specs.Prelude.{◌≡◌, ◌≤◌, ◌<◌, ◌+◌, ◌++◌, [], IfOk, IfErr, OnOk, OnErr, Some, None, length};
ghost use Rattle.std.specs.Option.{option_to_list};
ghost use Rattle.std.specs.Vec.{vec_capacity};
ghost use Rattle.batch_cutter.specs.Division.{message, timeout};
ghost use Rattle.fab_types.specs.Editions.{last_block};
ghost use Rattle.fab_types.specs.Size.{envelope_size};
ghost use Rattle.fab_types.specs.declared.edition.Edition.TheVariants.{First};
ghost use Rattle.orderer.specs.Blocks.{from_number, AreLinked};
ghost use Rattle.orderer.specs.Headers.{blocks_made, reports_made};
ghost use Rattle.orderer.specs.Ordering.{Ordering, AreLimits, Takes, IsRefused};

use crate::maker::BlockMaker;
use crate::making::Made;
use crate::report::{BatchReport, OrderRefusal};
use fab_types::limits::LAST_BLOCK;
use fab_types::{Block, Edition, Envelope};
use std::alloc::{AllocError, Global};
use std::marker::Model;

/// Cuts envelopes into batches, and puts a block of what survives of each at the end of a chain.
///
/// Each block has the number after that of the block before it, from 1 to the last one of the
/// edition, the hash of that block's header (32 zero bytes in block 1) and the hash of its own data.
/// A call that is refused changes nothing.
#[derive(Drop)]
pub struct Orderer {
    maker: BlockMaker,
    blocks: Vec<Block>,
    alloc: Global,
}

impl Model for Orderer {
    ghost use Rattle.std.specs.Prelude.{◌≡◌, ◌≤◌, [], length};
    ghost use Rattle.fab_types.specs.Editions.{last_block};
    ghost use Rattle.orderer.specs.Blocks.{AreLinked};
    ghost use Rattle.orderer.specs.Ordering.{Ordering};

    ghost Value = { Ordering };

    ghost view = { λ o. o.maker };

    ghost invariant = { λ o. (o.blocks.items ≡ o.maker.chain) ×
        (length o.blocks.items ≤ last_block o.maker.edition) × AreLinked [] o.blocks.items };
}

impl Orderer {
    /// An orderer under rules 1 without blocks, where nothing waits.
    ///
    /// A batch has at most `count` envelopes, 1 to 512. Envelopes of at most `preferred` bytes
    /// together share a batch, and one above it is a batch alone; none above `absolute` bytes is
    /// taken. Both are at most 524,288. With `reorder` early abort and reordering act on each
    /// batch, else its block has the envelopes as they were cut.
    pub fn new(
        alloc: Global,
        count: usize,
        preferred: usize,
        absolute: usize,
        reorder: bool,
    ) -> Self
        requires { AreLimits
            (record { count = count; preferred = preferred; absolute = absolute }) }
        ensures { result
            ≡ record {
              edition = First;
              reorder = reorder;
              limits = record { count = count; preferred = preferred; absolute = absolute };
              pending = [];
              chain = [];
            } }
    {
        Orderer::with_edition(alloc, Edition::First, count, preferred, absolute, reorder)
    }

    /// An orderer under this edition of the rules, else as `new` makes it.
    pub fn with_edition(
        alloc: Global,
        edition: Edition,
        count: usize,
        preferred: usize,
        absolute: usize,
        reorder: bool,
    ) -> Self
        requires { AreLimits
            (record { count = count; preferred = preferred; absolute = absolute }) }
        ensures { result
            ≡ record {
              edition = edition;
              reorder = reorder;
              limits = record { count = count; preferred = preferred; absolute = absolute };
              pending = [];
              chain = [];
            } }
    {
        Orderer {
            maker: BlockMaker::new(alloc, edition, count, preferred, absolute, reorder),
            blocks: Vec::new(alloc),
            alloc,
        }
    }

    /// Takes an envelope in, and reports the batches that it ends, none to two, in their order.
    ///
    /// A refusal hands the envelope back. Its cause is 421 where the envelope is above the absolute
    /// size, whatever memory there is. Else it is 422 where a block past the last one of the edition
    /// would be needed, or 9 where a growth of memory was refused, which may come before it is known
    /// whether a number is left.
    pub fn accept(&mut self, given: Envelope) -> Result<Vec<BatchReport>, OrderRefusal>
        ensures taken { IfOk result
            (λ reports. Takes self.old (message given) reports.items self.new) }
        ensures size { OnOk result (envelope_size given ≤ self.old.limits.absolute) }
        ensures numbers { OnOk result
            (length self.new.chain ≤ last_block self.old.edition) }
        ensures refused { IfErr result
            (λ refusal. IsRefused refusal.cause self.old (message given)) }
        ensures handed_back { IfErr result (λ refusal. refusal.envelope ≡ Some given) }
        ensures unchanged { OnErr result (self.new ≡ self.old) }
    {
        let Ok(reports) = room(self.alloc, &mut self.blocks) else {
            return Err(self.maker.refuse(given));
        };
        match self.maker.accept(given) {
            Ok(made) => Ok(keep_each(&mut self.blocks, made, reports)),
            Err(refusal) => Err(refusal),
        }
    }

    /// Cuts the envelopes that wait, as a timeout does, and reports their batch. None where no
    /// envelope waits.
    ///
    /// A refusal has no envelope. Its cause is 422 where a block past the last one of the edition
    /// would be needed, or 9 where a growth of memory was refused, which may come before it is known
    /// whether a number is left.
    pub fn tick(&mut self) -> Result<Option<BatchReport>, OrderRefusal>
        ensures taken { IfOk result
            (λ report. Takes self.old timeout (option_to_list report) self.new) }
        ensures numbers { OnOk result
            (length self.new.chain ≤ last_block self.old.edition) }
        ensures refused { IfErr result (λ refusal. IsRefused refusal.cause self.old timeout) }
        ensures handed_back { IfErr result (λ refusal. refusal.envelope ≡ None) }
        ensures unchanged { OnErr result (self.new ≡ self.old) }
    {
        self.blocks.reserve(1)?;
        match self.maker.tick()? {
            Some(made) => Ok(Some(keep(&mut self.blocks, made))),
            None => Ok(None),
        }
    }

    /// All blocks, from block 1 on.
    pub fn blocks(&self) -> &[Block]
        ensures all { result.now ≡ self.now.chain }
        ensures linked { AreLinked [] self.now.chain }
        ensures count { length self.now.chain ≤ last_block self.now.edition }
        ensures limits { length self.now.chain ≤ LAST_BLOCK }
    {
        &self.blocks
    }

    /// All blocks numbered `number` or more, in their order. It takes no memory.
    pub fn blocks_from(&self, number: u32) -> &[Block]
        ensures { result.now ≡ from_number number self.now.chain }
    {
        let blocks = self.blocks.as_slice();
        let start = (number as usize).saturating_sub(1);
        if start >= blocks.len() {
            return &[];
        }
        &blocks[start..]
    }
}

/// Room for the two blocks that an envelope may end, and for their reports.
fn room(alloc: Global, blocks: &mut Vec<Block>) -> Result<Vec<BatchReport>, AllocError>
    ensures same { blocks.new.items ≡ blocks.old.items }
    ensures blocks { OnOk result (length blocks.new.items + 2 ≤ vec_capacity blocks.new) }
    ensures reports { IfOk result
        (λ reports. (reports.items ≡ []) × (2 ≤ vec_capacity reports)) }
{
    blocks.reserve(2)?;
    Vec::with_capacity(alloc, 2)
}

/// Puts the block of a batch at the end of the chain, if there is one, and gives the report.
fn keep(blocks: &mut Vec<Block>, made: Made) -> BatchReport
    requires room { length blocks.old.items + 1 ≤ vec_capacity blocks.old }
    ensures blocks { blocks.new.items ≡ blocks.old.items ++ option_to_list made.block }
    ensures room { vec_capacity blocks.old ≤ vec_capacity blocks.new }
    ensures report { result ≡ made.report }
{
    let Made { report, block } = made;
    if let Some(block) = block {
        blocks.push(block).unwrap();
    }
    report
}

/// Puts the blocks of batches at the end of the chain, and their reports in an empty list.
fn keep_each(
    blocks: &mut Vec<Block>,
    made: Vec<Made>,
    mut reports: Vec<BatchReport>,
) -> Vec<BatchReport>
    requires blocks { length blocks.old.items + length made.items ≤ vec_capacity blocks.old }
    requires empty { reports.items ≡ [] }
    requires reports { length made.items ≤ vec_capacity reports }
    ensures blocks { blocks.new.items ≡ blocks.old.items ++ blocks_made made.items }
    ensures reports { result.items ≡ reports_made made.items }
{
    'made: for each in made {
        reports.push(keep(blocks, each)).unwrap();
    }
    reports
}
