//! What a seat knows of the history.

/// Which history a seat knows, once it knows one. It exists in proofs alone.
pub struct Knowledge {
    pub knows: bool,
    pub number: u64,
    pub log_name: u64,
    pub cells_name: u64,
}
