//! How blocks are linked by hashes.

ghost use Rattle.std.specs.Prelude.{◌≡◌, ◌-◌, List, length, option_map, slice_get};
ghost use Rattle.fab_types.specs.declared.block.Block.{Block};
ghost use Rattle.wire.specs.Links.{next_link};

use crate::encode::header_hash;
use fab_types::Block;

/// The hash that the next header names: that of the last block's header, or 32 zero bytes where
/// there is no block.
pub fn next_link(last: Option<&Block>) -> [u8; 32]
    ensures { (blocks : List Block) →
        option_map (λ b. b.now) last.entry ≡ slice_get blocks (length blocks - 1) →
        result ≡ next_link blocks }
{
    match last {
        None => [0; 32],
        Some(block) => header_hash(&block.header),
    }
}
