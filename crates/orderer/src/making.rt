//! A batch as a block, behind a chain of which the length and the last header's hash are known.

ghost use Rattle.std.specs.Prelude.{◌≡◌, ◌≤◌, ◌+◌, ◌++◌, suc, IfErr, IfOk, IfSome, List, MatchOption, length};
ghost use Rattle.std.specs.Option.{option_to_list};
ghost use Rattle.fab_types.specs.Data.{IsBlockData};
ghost use Rattle.fab_types.specs.Editions.{last_block};
ghost use Rattle.fab_types.specs.declared.block.Block.{Block};
ghost use Rattle.orderer.specs.Adding.{IsBatchRefused};
ghost use Rattle.orderer.specs.Arranged.{arranges_by};
ghost use Rattle.orderer.specs.Blocks.{Adds, next_block};
ghost use Rattle.orderer.specs.Making.{number_in, tip_of};
ghost use Rattle.orderer.specs.Places.{envelopes_at};

use crate::arrangement::arrangement_of;
use crate::report::{BatchReport, OrderCause};
use fab_types::{Block, BlockData, BlockNumber, Edition, Envelope, Header};
use seq::Seq;
use std::alloc::{AllocError, Global};
use wire::data_hash;

/// Where a block goes: behind so many blocks, the last of whose headers has this hash (32 zero
/// bytes where there are none).
#[derive(Clone, Copy, Debug, Drop)]
pub(crate) struct Tip {
    pub height: usize,
    pub link: [u8; 32],
}

/// What a batch becomes: its report, and its block, if anything survives.
#[derive(Debug, Drop)]
pub struct Made {
    pub report: BatchReport,
    pub block: Option<Block>,
}

/// Arranges a batch, and makes the block behind a tip of what survives, if anything does.
///
/// A tip is of at most as many blocks as the edition allows. The error is `NoNumber` where one more
/// would be needed, or of memory.
pub(crate) fn make_block(
    alloc: Global,
    edition: Edition,
    reorder: bool,
    tip: Tip,
    batch: &[Envelope],
) -> Result<Made, OrderCause>
    requires height { tip.height ≤ last_block edition }
    requires batch { IsBlockData batch.now }
    ensures made { IfOk result (λ made. (chain : List Block) → tip ≡ tip_of chain →
        Adds (arranges_by reorder) chain batch.now made.report
        (chain ++ option_to_list made.block)) }
    ensures own { IfOk result (λ made. made.report.block ≡ number_in made.block) }
    ensures number { IfOk result
        (λ made. tip.height + length (option_to_list made.block) ≤ last_block edition) }
    ensures refused { IfErr result (λ cause. (chain : List Block) → tip ≡ tip_of chain →
        IsBatchRefused (last_block edition) (arranges_by reorder) cause chain batch.now) }
{
    let arrangement = arrangement_of(alloc, reorder, batch)?;
    let survivors = pick(alloc, batch, &arrangement.order)?;
    let aborted = Seq::new(arrangement.aborted);
    if survivors.is_empty() {
        let report = BatchReport {
            block: None,
            count: 0,
            aborted,
        };
        return Ok(Made {
            report,
            block: None,
        });
    }
    let Some(number) = next_number(edition, tip.height) else {
        return Err(OrderCause::NoNumber);
    };
    let report = BatchReport {
        block: Some(number.get()),
        count: survivors.len(),
        aborted,
    };
    let block = Some(block_of(alloc, tip, number, survivors)?);
    Ok(Made { report, block })
}

/// The envelopes at these places of a batch, in the order of the places.
fn pick(alloc: Global, batch: &[Envelope], order: &[usize]) -> Result<Vec<Envelope>, AllocError>
    ensures { IfOk result (λ v. v.items ≡ envelopes_at batch.now order.now) }
{
    let mut envelopes = Vec::with_capacity(alloc, order.len())?;
    for place in order {
        if let Some(envelope) = batch.get(*place) {
            envelopes.push(envelope.clone()?)?;
        }
    }
    Ok(envelopes)
}

/// The number of the block after `count` blocks. None where the edition allows no more.
fn next_number(edition: Edition, count: usize) -> Option<BlockNumber>
    requires { count ≤ last_block edition }
    ensures number { MatchOption result (count ≡ last_block edition) (λ n. n ≡ suc count) }
    ensures limits { IfSome result (λ n. n ≤ last_block edition) }
{
    if count == edition.last_block() as usize {
        return None;
    }
    BlockNumber::new(count as u32 + 1)
}

/// The block behind a tip, of this number and these envelopes.
fn block_of(
    alloc: Global,
    tip: Tip,
    number: BlockNumber,
    envelopes: Vec<Envelope>,
) -> Result<Block, AllocError>
    requires number { number ≡ suc tip.height }
    requires envelopes { IsBlockData envelopes.items }
    ensures next { IfOk result (λ block. (chain : List Block) → tip ≡ tip_of chain →
        block ≡ next_block chain envelopes.items) }
    ensures number { IfOk result (λ block. block.header.number ≡ number) }
{
    let envelopes = BlockData::new(envelopes).unwrap();
    let data_hash = data_hash(alloc, &envelopes)?;
    let previous_hash = tip.link;
    let header = Header {
        number,
        previous_hash,
        data_hash,
    };
    Ok(Block { header, envelopes })
}
