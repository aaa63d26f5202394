//! Who takes the blocks of a store as they are committed again.

ghost use Rattle.std.specs.Prelude.{◌≡◌, [], ◌∷◌, ◌+◌, ◌++◌, OnOk, length};
ghost use Rattle.ledger_model.specs.Chain.{Chain};

use fab_types::CommittedBlock;
use std::alloc::AllocError;

/// Who takes the blocks of a store as they are committed again, with the flags of the table.
pub trait BlockSink {
    /// What a sink is made with, which no call changes.
    ghost Context: { Type 0 };

    ghost context: { Self → Self.Context };

    /// These blocks were taken, in their order.
    ghost Took: { Self → Chain → Type 0 };

    /// Takes the next block. The error is of memory.
    fn take(&mut self, committed: CommittedBlock) -> Result<(), AllocError>
        requires { (before : Chain) × Took self.old before
            × (committed.block.header.number ≡ length before + 1) }
        ensures took { (before : Chain) → Took self.old before →
            committed.block.header.number ≡ length before + 1 →
            OnOk result (Took self.new (before ++ committed ∷ [])) }
        ensures context { OnOk result (context self.new ≡ context self.old) };
}

/// A sink that lets each block go.
#[derive(Drop)]
pub struct Unheld;

impl BlockSink for Unheld {
    ghost Context = { Unit {0} };

    ghost context = { λ _. tt };

    ghost Took = { λ _ _. Unit {0} };

    fn take(&mut self, _committed: CommittedBlock) -> Result<(), AllocError> {
        Ok(())
    }
}
