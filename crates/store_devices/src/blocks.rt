//! Chains of which the blocks lie somewhere else.

ghost use Rattle.std.specs.Prelude.{◌≡◌, ◌≤◌, Bool, true, false, IfErr, IfOk, length};
ghost use Rattle.ledger_model.specs.Chain.{Chain};
ghost use Rattle.kept_state.specs.Keeping.{IsKept, chain_of};
ghost use Rattle.store_devices.specs.Blocks.{IsGiven};
ghost use Rattle.store_devices.specs.Placed.{IsOfMemory};

use crate::placed::BlockFault;
use fab_types::CommittedBlock;
use kept_state::KeptChain;
use std::alloc::Global;

/// A chain of which the blocks lie somewhere else, and are read there, by several threads at once.
pub trait Blocks: Sync {
    /// The chain.
    ghost chain: { Self → Chain };

    /// Whether each block is given back as it is in the chain, and no call fails.
    ghost keeps: { Bool } = { false };

    /// What has to hold of it.
    ghost IsSound: { Self → Type 0 };

    /// What is kept of the chain.
    fn kept(&self) -> &KeptChain
        ensures chain { chain_of result.now ≡ chain self.now }
        ensures kept { IsSound self.now → IsKept result.now };

    /// The block of a number with its flags. The chain has one.
    fn block(&self, alloc: Global, number: u32) -> Result<CommittedBlock, BlockFault>
        requires sound { IsSound self.now }
        requires there { (1 ≤ number) × (number ≤ length (chain self.now)) }
        ensures given { IfOk result (λ c. IsGiven keeps (chain self.now) number c) }
        ensures lost { keeps ≡ true → IfErr result IsOfMemory };
}
