//! A step of a plan.

/// The transaction that a plan picks next, by its index in the batch.
#[derive(Clone, Copy, Debug, PartialEq, Eq)]
pub enum Pick {
    /// It is placed next.
    Place(usize),
    /// It is aborted.
    Abort(usize),
}
