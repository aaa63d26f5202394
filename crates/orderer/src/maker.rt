//! Makes the blocks of a chain, and keeps the hashes of their headers alone.

ghost use Rattle.std.specs.Prelude.{◌≡◌, ◌↔◌, ◌≤◌, ◌+◌, ◌++◌, [], IfErr, IfOk, IsTrue, List, None, OnErr, OnOk, Some, length};
ghost use Rattle.std.specs.List.{AllByRecursion};
ghost use Rattle.std.specs.Option.{option_to_list};
ghost use Rattle.std.specs.Vec.{vec_capacity};
ghost use Rattle.batch_cutter.specs.Division.{message, timeout};
ghost use Rattle.batch_cutter.specs.Offers.{batches};
ghost use Rattle.fab_types.specs.Data.{IsBlockData};
ghost use Rattle.fab_types.specs.Editions.{last_block};
ghost use Rattle.fab_types.specs.Size.{envelope_size};
ghost use Rattle.fab_types.specs.declared.block.Block.{Block};
ghost use Rattle.orderer.specs.Adding.{IsBatchRefused, IsCutRefused};
ghost use Rattle.orderer.specs.Arranged.{arranges_by};
ghost use Rattle.orderer.specs.Blocks.{Adds, AddsEach};
ghost use Rattle.orderer.specs.Making.{number_in, tip_of};
ghost use Rattle.orderer.specs.Ordering.{AreLimits, IsRefused, Takes};
ghost use Rattle.orderer.specs.Headers.{AreOwn, blocks_made, hash_at, hashes_of, reports_made};

use crate::chain::Chain;
use crate::making::{Made, Tip, make_block};
use crate::report::{OrderCause, OrderRefusal};
use batch_cutter::{Cut, Cutter};
use fab_types::limits::LAST_BLOCK;
use fab_types::{Edition, Envelope};
use std::alloc::Global;
use std::marker::Model;
use std::slice;
use wire::header_hash;

/// Cuts envelopes into batches, and hands out a block of what survives of each.
///
/// The blocks make a chain as those of [`crate::Orderer`] do. What is kept of each is the hash of
/// its header, 32 bytes. A call that is refused changes nothing.
#[derive(Drop)]
pub struct BlockMaker {
    edition: Edition,
    reorder: bool,
    cutter: Cutter<Envelope>,
    /// The hashes of the headers, from block 1 on.
    hashes: Vec<[u8; 32]>,
    chain: Chain,
    alloc: Global,
}

impl Model for BlockMaker {
    ghost use Rattle.std.specs.Prelude.{◌≡◌, ◌≤◌, length};
    ghost use Rattle.fab_types.specs.Editions.{last_block};
    ghost use Rattle.orderer.specs.Ordering.{Ordering, AreLimits};
    ghost use Rattle.orderer.specs.Headers.{hashes_of};

    ghost Value = { Ordering };

    ghost view = { λ o.
        record {
          edition = o.edition;
          reorder = o.reorder;
          limits = o.cutter.limits;
          pending = o.cutter.pending;
          chain = o.chain.blocks;
        } };

    ghost invariant = { λ o. AreLimits o.cutter.limits ×
        (length o.chain.blocks ≤ last_block o.edition) × (o.hashes.items ≡ hashes_of o.chain.blocks) };
}

impl BlockMaker {
    /// One that has made no block, where nothing waits.
    ///
    /// The edition says how many blocks there may be.
    /// A batch has at most `count` envelopes, 1 to 512. Envelopes of at most `preferred` bytes
    /// together share a batch, and one above it is a batch alone; none above `absolute` bytes is
    /// taken. Both are at most 524,288. With `reorder` early abort and reordering act on each
    /// batch, else its block has the envelopes as they were cut.
    pub fn new(
        alloc: Global,
        edition: Edition,
        count: usize,
        preferred: usize,
        absolute: usize,
        reorder: bool,
    ) -> Self
        requires { AreLimits
            (record { count = count; preferred = preferred; absolute = absolute }) }
        ensures { result
            ≡ record {
              edition = edition;
              reorder = reorder;
              limits = record { count = count; preferred = preferred; absolute = absolute };
              pending = [];
              chain = [];
            } }
    {
        BlockMaker {
            edition,
            reorder,
            cutter: Cutter::new(alloc, count, preferred, absolute),
            hashes: Vec::new(alloc),
            chain: Chain::new(),
            alloc,
        }
    }

    /// Takes an envelope in, and hands out what the batches that it ends become, none to two, in
    /// their order.
    ///
    /// A refusal hands the envelope back. Its cause is 421 where the envelope is above the absolute
    /// size, whatever memory there is. Else it is 422 where a block past the last one of the edition
    /// would be needed, or 9 where a growth of memory was refused, which may come before it is known
    /// whether a number is left.
    pub fn accept(&mut self, given: Envelope) -> Result<Vec<Made>, OrderRefusal>
        ensures taken { IfOk result
            (λ made. Takes self.old (message given) (reports_made made.items) self.new) }
        ensures blocks { IfOk result
            (λ made. self.new.chain ≡ self.old.chain ++ blocks_made made.items) }
        ensures own { IfOk result (λ made. AreOwn made.items) }
        ensures two { IfOk result (λ made. length made.items ≤ 2) }
        ensures size { OnOk result (envelope_size given ≤ self.old.limits.absolute) }
        ensures numbers { OnOk result
            (length self.new.chain ≤ last_block self.old.edition) }
        ensures refused { IfErr result
            (λ refusal. IsRefused refusal.cause self.old (message given)) }
        ensures handed_back { IfErr result (λ refusal. refusal.envelope ≡ Some given) }
        ensures unchanged { OnErr result (self.new ≡ self.old) }
    {
        let cut = match self.cutter.offer(given) {
            Ok(cut) => cut,
            Err(offered) => {
                return Err(OrderRefusal {
                    envelope: Some(offered.message),
                    cause: OrderCause::from(offered.cause),
                });
            }
        };
        match add_cut(
            self.alloc,
            self.edition,
            self.reorder,
            &mut self.hashes,
            &mut self.chain,
            &cut,
        ) {
            Ok(made) => {
                drop(cut);
                Ok(made)
            }
            Err(cause) => Err(OrderRefusal {
                envelope: Some(self.cutter.undo(cut)),
                cause,
            }),
        }
    }

    /// Refuses an envelope for want of memory, or for its size, which goes first.
    pub(crate) fn refuse(&mut self, given: Envelope) -> OrderRefusal
        ensures refused { IsRefused result.cause self.old (message given) }
        ensures handed_back { result.envelope ≡ Some given }
        ensures unchanged { self.new ≡ self.old }
    {
        let (envelope, cause) = match self.cutter.offer(given) {
            Ok(cut) => (self.cutter.undo(cut), OrderCause::Memory),
            Err(offered) => (offered.message, OrderCause::from(offered.cause)),
        };
        OrderRefusal {
            envelope: Some(envelope),
            cause,
        }
    }

    /// Cuts the envelopes that wait, as a timeout does, and hands out what their batch becomes.
    /// None where no envelope waits.
    ///
    /// A refusal has no envelope. Its cause is 422 where a block past the last one of the edition
    /// would be needed, or 9 where a growth of memory was refused, which may come before it is known
    /// whether a number is left.
    pub fn tick(&mut self) -> Result<Option<Made>, OrderRefusal>
        ensures taken { IfOk result (λ made.
            Takes self.old timeout (reports_made (option_to_list made)) self.new) }
        ensures blocks { IfOk result (λ made.
            self.new.chain ≡ self.old.chain ++ blocks_made (option_to_list made)) }
        ensures own { IfOk result (λ made. AreOwn (option_to_list made)) }
        ensures numbers { OnOk result
            (length self.new.chain ≤ last_block self.old.edition) }
        ensures refused { IfErr result (λ refusal. IsRefused refusal.cause self.old timeout) }
        ensures handed_back { IfErr result (λ refusal. refusal.envelope ≡ None) }
        ensures unchanged { OnErr result (self.new ≡ self.old) }
    {
        let Some(batch) = self.cutter.timeout() else {
            return Ok(None);
        };
        match add_batch(
            self.alloc,
            self.edition,
            self.reorder,
            &mut self.hashes,
            &mut self.chain,
            &batch,
        ) {
            Ok(made) => {
                drop(batch);
                Ok(Some(made))
            }
            Err(cause) => {
                self.cutter.put_back(batch);
                Err(OrderRefusal {
                    envelope: None,
                    cause,
                })
            }
        }
    }

    /// Whether the block of this number, from 1 on, has a header with this hash.
    pub fn has_header(&self, number: u32, hash: &[u8; 32]) -> bool
        ensures { IsTrue result ↔ (hash_at self.now.chain number ≡ Some hash.now) }
    {
        if number == 0 {
            return false;
        }
        match self.hashes.get(number as usize - 1) {
            Some(own) => own == hash,
            None => false,
        }
    }
}

/// The tip of a chain whose headers have these hashes.
fn tip_of(hashes: &[[u8; 32]]) -> Tip
    ensures height { result.height ≡ length hashes.now }
    ensures tip { (chain : List Block) → hashes.now ≡ hashes_of chain → result ≡ tip_of chain }
{
    let height = hashes.len();
    match hashes.last() {
        Some(hash) => Tip {
            height,
            link: *hash,
        },
        None => Tip {
            height,
            link: [0; 32],
        },
    }
}

/// The tip behind what a batch became.
fn tip_after(tip: Tip, made: &Made) -> Tip
    requires { tip.height + length (option_to_list made.now.block) ≤ LAST_BLOCK }
    ensures height { result.height ≡ tip.height + length (option_to_list made.now.block) }
    ensures tip { (chain : List Block) → tip ≡ tip_of chain →
        result ≡ tip_of (chain ++ option_to_list made.now.block) }
{
    match &made.block {
        Some(block) => Tip {
            height: tip.height + 1,
            link: header_hash(&block.header),
        },
        None => tip,
    }
}

/// Makes what the batches of a cut become behind a tip, one after another.
fn make_each(
    alloc: Global,
    edition: Edition,
    reorder: bool,
    tip: Tip,
    cut: &Cut<Envelope>,
) -> Result<Vec<Made>, OrderCause>
    requires height { tip.height ≤ last_block edition }
    requires batches { AllByRecursion IsBlockData (batches cut.now) }
    ensures made { IfOk result (λ made. (chain : List Block) → tip ≡ tip_of chain →
        AddsEach (arranges_by reorder) chain (batches cut.now) (reports_made made.items)
        (chain ++ blocks_made made.items)) }
    ensures own { IfOk result (λ made. AreOwn made.items) }
    ensures two { IfOk result (λ made. length made.items ≤ 2) }
    ensures number { IfOk result
        (λ made. tip.height + length (blocks_made made.items) ≤ last_block edition) }
    ensures refused { IfErr result (λ cause. (chain : List Block) → tip ≡ tip_of chain →
        IsCutRefused (last_block edition) (arranges_by reorder) cause chain (batches cut.now)) }
{
    let mut all = Vec::new(alloc);
    put_each(alloc, edition, reorder, tip, cut, &mut all)?;
    Ok(all)
}

/// Puts what the batches of a cut become behind a tip, one after another, in an empty list.
fn put_each(
    alloc: Global,
    edition: Edition,
    reorder: bool,
    tip: Tip,
    cut: &Cut<Envelope>,
    all: &mut Vec<Made>,
) -> Result<(), OrderCause>
    requires height { tip.height ≤ last_block edition }
    requires batches { AllByRecursion IsBlockData (batches cut.now) }
    requires empty { all.old.items ≡ [] }
    ensures made { OnOk result ((chain : List Block) → tip ≡ tip_of chain →
        AddsEach (arranges_by reorder) chain (batches cut.now) (reports_made all.new.items)
        (chain ++ blocks_made all.new.items)) }
    ensures own { OnOk result (AreOwn all.new.items) }
    ensures two { OnOk result (length all.new.items ≤ 2) }
    ensures number { OnOk result
        (tip.height + length (blocks_made all.new.items) ≤ last_block edition) }
    ensures refused { IfErr result (λ cause. (chain : List Block) → tip ≡ tip_of chain →
        IsCutRefused (last_block edition) (arranges_by reorder) cause chain (batches cut.now)) }
{
    match cut {
        Cut::Nothing => Ok(()),
        Cut::One(batch) => {
            all.push(make_block(alloc, edition, reorder, tip, batch)?)?;
            Ok(())
        }
        Cut::Two(first, second) => {
            let made = make_block(alloc, edition, reorder, tip, first)?;
            let next = tip_after(tip, &made);
            all.push(made)?;
            all.push(make_block(alloc, edition, reorder, next, second)?)?;
            Ok(())
        }
    }
}

/// Keeps the hashes of the headers of blocks.
fn keep(hashes: &mut Vec<[u8; 32]>, chain: &mut Chain, made: &[Made])
    requires room { length hashes.old.items + length made.now ≤ vec_capacity hashes.old }
    ensures hashes { hashes.new.items ≡ hashes.old.items ++ hashes_of (blocks_made made.now) }
    ensures chain { chain.new.blocks ≡ chain.old.blocks ++ blocks_made made.now }
{
    for each in made {
        *chain = chain.and(each);
        if let Some(block) = &each.block {
            hashes.push(header_hash(&block.header)).unwrap();
        }
    }
}

/// Makes what the batches of a cut become, and keeps the hashes of the headers.
fn add_cut(
    alloc: Global,
    edition: Edition,
    reorder: bool,
    hashes: &mut Vec<[u8; 32]>,
    chain: &mut Chain,
    cut: &Cut<Envelope>,
) -> Result<Vec<Made>, OrderCause>
    requires height { length chain.old.blocks ≤ last_block edition }
    requires hashes { hashes.old.items ≡ hashes_of chain.old.blocks }
    requires batches { AllByRecursion IsBlockData (batches cut.now) }
    ensures added { IfOk result
        (λ made. AddsEach (arranges_by reorder) chain.old.blocks (batches cut.now)
        (reports_made made.items) chain.new.blocks) }
    ensures blocks { IfOk result
        (λ made. chain.new.blocks ≡ chain.old.blocks ++ blocks_made made.items) }
    ensures own { IfOk result (λ made. AreOwn made.items) }
    ensures two { IfOk result (λ made. length made.items ≤ 2) }
    ensures hashes { hashes.new.items ≡ hashes_of chain.new.blocks }
    ensures number { OnOk result (length chain.new.blocks ≤ last_block edition) }
    ensures unchanged { OnErr result (chain.new ≡ chain.old) }
    ensures refused { IfErr result
        (λ cause. IsCutRefused (last_block edition) (arranges_by reorder) cause chain.old.blocks
        (batches cut.now)) }
{
    hashes.reserve(2)?;
    let made = make_each(alloc, edition, reorder, tip_of(hashes), cut)?;
    keep(hashes, chain, &made);
    Ok(made)
}

/// Makes what a batch becomes, and keeps the hash of the header.
fn add_batch(
    alloc: Global,
    edition: Edition,
    reorder: bool,
    hashes: &mut Vec<[u8; 32]>,
    chain: &mut Chain,
    batch: &[Envelope],
) -> Result<Made, OrderCause>
    requires height { length chain.old.blocks ≤ last_block edition }
    requires hashes { hashes.old.items ≡ hashes_of chain.old.blocks }
    requires batch { IsBlockData batch.now }
    ensures added { IfOk result
        (λ made. Adds (arranges_by reorder) chain.old.blocks batch.now made.report
        chain.new.blocks) }
    ensures blocks { IfOk result
        (λ made. chain.new.blocks ≡ chain.old.blocks ++ option_to_list made.block) }
    ensures own { IfOk result (λ made. made.report.block ≡ number_in made.block) }
    ensures hashes { hashes.new.items ≡ hashes_of chain.new.blocks }
    ensures number { OnOk result (length chain.new.blocks ≤ last_block edition) }
    ensures unchanged { OnErr result (chain.new ≡ chain.old) }
    ensures refused { IfErr result
        (λ cause. IsBatchRefused (last_block edition) (arranges_by reorder) cause
        chain.old.blocks batch.now) }
{
    hashes.reserve(1)?;
    let made = make_block(alloc, edition, reorder, tip_of(hashes), batch)?;
    keep(hashes, chain, slice::from_ref(&made));
    Ok(made)
}
