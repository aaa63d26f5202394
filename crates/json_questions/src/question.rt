//! What is asked of a ledger.

use crate::asked_orgs::AskedOrgs;
use fab_types::{BlockNumber, Bound, Key, Name, Value};

/// What is asked of a ledger.
#[derive(Drop)]
pub enum Question {
    /// What its genesis sets.
    Setting,
    /// Who stands in the state.
    Members,
    /// The block of this number.
    Block(BlockNumber),
    /// What a key has in the state.
    Get(Key),
    /// The first entries of a range of the state, 1 to 1,000 of them at most: from a start on, or
    /// from the first key that is shown where it is empty, and below an end, or without a bound
    /// where it is empty.
    Range {
        start: Bound,
        end: Bound,
        limit: usize,
    },
    /// What VALID transactions wrote to a key.
    History(Key),
    /// The same of some blocks alone: from a number on, 1 to 1,000 of them at most.
    HistoryPart {
        key: Key,
        from: BlockNumber,
        blocks: usize,
    },
    /// The first transaction of this id.
    Transaction([u8; 32]),
    /// Whether those of these organisations that stand satisfy the policy of a chaincode.
    Satisfied {
        chaincode: Name,
        orgs: AskedOrgs,
    },
    /// What a call of a chaincode with an argument comes to.
    Call {
        chaincode: Name,
        argument: Value,
    },
}
