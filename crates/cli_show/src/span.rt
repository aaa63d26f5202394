//! Blocks of a chain.

/// The blocks from one number to another, both among them, counted from 1, as far as there are any.
#[derive(Clone, Copy)]
pub struct Span {
    pub from: usize,
    pub to: usize,
}
