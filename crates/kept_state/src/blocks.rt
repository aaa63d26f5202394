//! The blocks of a chain that nobody holds, for contracts.

ghost use Rattle.std.specs.Prelude.{◌≡◌, List};
ghost use Rattle.std.specs.Borrow.{ftrue};
ghost use Rattle.fab_types.specs.Committed.{Committed};

use fab_types::CommittedBlock;
use std::marker::Model;

/// Blocks with their flags, from block 1 on. It takes no memory, and its functions do nothing at
/// run time.
#[derive(Drop)]
pub(crate) struct Blocks {
    ghost blocks: { List Committed },
}

impl Model for Blocks {
    ghost also_owns = { λ _. ftrue };
}

impl Blocks {
    ghost use Rattle.kept_state.specs.Blocks.{followed_by, no_blocks};

    /// Before the first block.
    pub(crate) fn new() -> Blocks
        ensures { result ≡ no_blocks }
    {
        Blocks {}
    }

    /// With one more block.
    #[inline(always)]
    pub(crate) fn and(&self, _committed: &CommittedBlock) -> Blocks
        ensures { result ≡ followed_by self.now _committed.now }
    {
        Blocks {}
    }
}
