//! The chain of which the maker of its blocks keeps hashes alone, for contracts.

ghost use Rattle.std.specs.Prelude.{◌≡◌, List};
ghost use Rattle.std.specs.Borrow.{ftrue};
ghost use Rattle.fab_types.specs.declared.block.Block.{Block};

use crate::making::Made;
use std::marker::Model;

/// The blocks that were made. It takes no memory, and its functions do nothing at run time.
#[derive(Drop)]
pub(crate) struct Chain {
    ghost blocks: { List Block },
}

impl Model for Chain {
    ghost also_owns = { λ _. ftrue };
}

impl Chain {
    ghost use Rattle.orderer.specs.Chain.{followed_by, no_blocks};

    /// Before the first block.
    pub(crate) fn new() -> Chain
        ensures { result ≡ no_blocks }
    {
        Chain {}
    }

    /// With the block of a batch, if there is one.
    #[inline(always)]
    pub(crate) fn and(&self, _made: &Made) -> Chain
        ensures { result ≡ followed_by self.now _made.now }
    {
        Chain {}
    }
}
