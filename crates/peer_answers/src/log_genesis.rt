//! The genesis of a log.

use ledger_setting::Genesis;

/// The genesis of a log, and the SHA-256 of the file that it was read from.
#[derive(Drop)]
pub struct LogGenesis {
    pub genesis: Genesis,
    pub digest: [u8; 32],
}
