//! Who is told how far a replay is.

/// Who is told how far a replay is.
pub trait Watch {
    /// So many blocks are on the chain. It is told before tags are checked: those of many blocks at
    /// once, or of one.
    fn reached(&self, blocks: usize);
}

/// Nobody is told.
#[derive(Clone, Copy)]
pub struct Unwatched;

impl Watch for Unwatched {
    fn reached(&self, _blocks: usize) {}
}
