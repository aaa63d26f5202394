//! Transactions at their places in a chain.

use fab_types::{Envelope, Flag};

/// A transaction, its flag, and where it stands: the number of its block, from 1, and its place in
/// it, from 0.
#[derive(Clone, Copy)]
pub struct Placed<'a> {
    pub envelope: &'a Envelope,
    pub flag: Flag,
    pub block: usize,
    pub place: usize,
}
