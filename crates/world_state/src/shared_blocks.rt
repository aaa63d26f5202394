//! The blocks of a chain.

ghost use Rattle.std.specs.Prelude.{◌≡◌, ◌≤◌, ◌+◌, [], ◌∷◌, ◌++◌, None, length, take, if◌then◌else◌, IfOk, OnOk, OnErr, option_map};
ghost use Rattle.std.specs.Arc.{arc_value};
ghost use Rattle.world_state.specs.Amending.{amends, has_amending, is_amending, last_amending, last_of};
ghost use Rattle.world_state.specs.Shared.{blocks_in};

use fab_types::limits::LAST_BLOCK;
use fab_types::{CommittedBlock, Flag, Proposal};
use std::alloc::{AllocError, Global};
use std::marker::Model;
use std::sync::Arc;

/// Whether a transaction of this flag is a VALID amendment.
fn is_amending(flag: Flag, proposal: &Proposal) -> bool
    ensures { result ≡ is_amending flag proposal.now }
{
    match (flag, proposal) {
        (Flag::Valid, Proposal::Amend(_)) => true,
        _ => false,
    }
}

/// Whether a block has a VALID amendment.
fn amends(committed: &CommittedBlock) -> bool
    ensures { result ≡ amends committed.now }
{
    let envelopes = committed.block().envelopes.as_slice();
    let flags = committed.flags();
    for place in 0..envelopes.len() {
        if is_amending(flags[place], envelopes[place].payload.proposal()) {
            return true;
        }
    }
    false
}

/// The number of the last block that has a VALID amendment, up to this one, behind those that have
/// these numbers.
fn last_number(before: &[u32], committed: &CommittedBlock) -> u32
    ensures { result
        ≡ (if amends committed.now then committed.now.block.header.number
        else last_of 0 before.now) }
{
    if amends(committed) {
        return committed.block().header.number.get();
    }
    match before.last() {
        Some(last) => *last,
        None => 0,
    }
}

/// Shared blocks, and one more.
fn with_block(
    alloc: Global,
    blocks: &[Arc<CommittedBlock>],
    block: CommittedBlock,
) -> Result<Vec<Arc<CommittedBlock>>, AllocError>
    requires { length blocks.now ≤ LAST_BLOCK }
    ensures { IfOk result (λ v. blocks_in v.items ≡ blocks_in blocks.now ++ block ∷ []) }
{
    let mut longer = Vec::with_capacity(alloc, blocks.len() + 1)?;
    longer.extend_with_clones(blocks)?;
    longer.push(Arc::new(alloc, block)?)?;
    Ok(longer)
}

/// Numbers, and one more.
fn with_number(alloc: Global, numbers: &[u32], number: u32) -> Result<Vec<u32>, AllocError>
    requires { length numbers.now ≤ LAST_BLOCK }
    ensures { IfOk result (λ v. v.items ≡ numbers.now ++ number ∷ []) }
{
    let mut longer = Vec::with_capacity(alloc, numbers.len() + 1)?;
    longer.extend_from_slice(numbers)?;
    longer.push(number)?;
    Ok(longer)
}

/// The blocks of a chain from block 1 on, and where its amendments stand.
#[derive(Drop)]
pub struct SharedBlocks {
    shared: Vec<Arc<CommittedBlock>>,
    /// For each block the number of the last one up to it that has a VALID amendment, or 0.
    amended: Vec<u32>,
}

impl Model for SharedBlocks {
    ghost use Rattle.std.specs.Prelude.{◌≡◌};
    ghost use Rattle.ledger_model.specs.Chain.{Chain};
    ghost use Rattle.world_state.specs.Amending.{amended_at};
    ghost use Rattle.world_state.specs.Shared.{blocks_in};

    ghost Value = { Chain };

    ghost view = { λ b. blocks_in b.shared.items };

    ghost invariant = { λ b. b.amended.items ≡ amended_at 1 0 (blocks_in b.shared.items) };
}

impl SharedBlocks {
    /// No blocks. It takes no memory.
    pub fn new(alloc: Global) -> SharedBlocks
        ensures { result ≡ [] }
    {
        SharedBlocks {
            shared: Vec::new(alloc),
            amended: Vec::new(alloc),
        }
    }

    /// The blocks in order.
    pub fn as_slice(&self) -> &[Arc<CommittedBlock>]
        ensures { blocks_in result.now ≡ self.now }
    {
        &self.shared
    }

    /// The last block that has a VALID amendment, of so many first ones. None where none has.
    pub fn last_amending(&self, height: usize) -> Option<&CommittedBlock>
        ensures { option_map (λ c. c.now) result ≡ last_amending None (take height self.now) }
    {
        let height = height.min(self.amended.len());
        if height == 0 {
            return None;
        }
        let number = self.amended[height - 1] as usize;
        if number == 0 {
            return None;
        }
        Some(&self.shared[number - 1])
    }

    /// These blocks, and one more, which is the next in number. The error is of memory.
    pub fn followed_by(
        &self,
        alloc: Global,
        block: CommittedBlock,
    ) -> Result<SharedBlocks, AllocError>
        requires next { block.block.header.number ≡ length self.now + 1 }
        requires limits { length self.now ≤ LAST_BLOCK }
        ensures { IfOk result (λ b. b ≡ self.now ++ block ∷ []) }
    {
        let number = last_number(&self.amended, &block);
        let shared = with_block(alloc, &self.shared, block)?;
        let amended = with_number(alloc, &self.amended, number)?;
        Ok(SharedBlocks { shared, amended })
    }

    /// Puts one block more behind them, which is the next in number. The error is of memory, and
    /// then nothing is changed.
    pub fn push(&mut self, committed: Arc<CommittedBlock>) -> Result<(), AllocError>
        requires next { (arc_value committed).block.header.number ≡ length self.old + 1 }
        ensures ok { OnOk result (self.new ≡ self.old ++ arc_value committed ∷ []) }
        ensures err { OnErr result (self.new ≡ self.old) }
    {
        let number = last_number(&self.amended, &committed);
        self.amended.reserve(1)?;
        self.shared.push(committed)?;
        // There is room.
        self.amended.push(number)?;
        Ok(())
    }
}
