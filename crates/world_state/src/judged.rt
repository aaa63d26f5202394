//! What a block's transactions were judged to be.

use fab_types::Flag;

/// The flags of a block's transactions, and their ids, by their places. It is made before the block
/// joins a chain, from a reference to the block.
#[derive(Drop)]
pub struct Judged {
    pub flags: Vec<Flag>,
    pub ids: Vec<[u8; 32]>,
}
