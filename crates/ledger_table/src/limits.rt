//! How large values may be, and how many there may be of them.

ghost use Rattle.std.specs.Prelude.{◌≡◌, map};
ghost use Rattle.ledger_table.specs.Table.{all_limits, limit_row};

use fab_types::limits::{
    LAST_BLOCK, LAST_BLOCK_OF_FIRST, MOST_CHAINCODE_READS, MOST_CHAINCODES, MOST_DATA_BYTES,
    MOST_FUEL, MOST_HELD, MOST_KEY_BYTES, MOST_MODULES, MOST_ORGANISATIONS, MOST_PEERS,
    MOST_POLICY_BYTES, MOST_QUEUED, MOST_RANGE_ENTRIES, MOST_RANGES, MOST_SEATS, MOST_TRANSACTIONS,
    MOST_VALUE_BYTES, MOST_WRITES,
};

/// A limit's name, the least and the greatest number, and of what they are.
pub type LimitRow = (&'static str, u64, u64, &'static str);

/// All limits. What names the table has all of it in its proof, so this alone does.
pub fn limit_rows() -> &'static [LimitRow]
    ensures { map limit_row result.now ≡ all_limits }
{
    &LIMITS
}

macro_rules! rows {
    ($($name:literal: $least:literal to $greatest:ident, $of:literal.)*) => {
        [$(($name, $least, $greatest as u64, $of)),*]
    };
}

static LIMITS: [LimitRow; 20] = rows! {
    "key_bytes": 1 to MOST_KEY_BYTES, "bytes of a key".
    "bound_bytes": 0 to MOST_KEY_BYTES, "bytes of a bound of a range".
    "value_bytes": 0 to MOST_VALUE_BYTES, "bytes of a value, an argument or a result".
    "reads": 0 to MOST_CHAINCODE_READS, "keys that a call reads beside its definition's".
    "writes": 0 to MOST_WRITES, "keys that a call writes".
    "ranges": 0 to MOST_RANGES, "ranges that a call reads".
    "range_entries": 1 to MOST_RANGE_ENTRIES, "the limit of a range, in entries".
    "fuel": 1 to MOST_FUEL, "fuel of a call".
    "policy_bytes": 1 to MOST_POLICY_BYTES, "bytes of the text of a policy".
    "block_transactions": 1 to MOST_TRANSACTIONS, "transactions of a block".
    "block_bytes": 1 to MOST_DATA_BYTES, "bytes of the envelopes of a block".
    "last_block_of_rules_1": 1 to LAST_BLOCK_OF_FIRST, "numbers of blocks under rules 1".
    "last_block_of_rules_2": 1 to LAST_BLOCK, "numbers of blocks under rules 2".
    "organisations": 1 to MOST_ORGANISATIONS, "organisations of a ledger".
    "peers": 1 to MOST_PEERS, "peers of a genesis file".
    "seats": 1 to MOST_SEATS, "proposals that a peer simulates at once".
    "queue": 1 to MOST_QUEUED, "envelopes that a queue holds".
    "chaincodes": 1 to MOST_CHAINCODES, "chaincodes of a genesis file".
    "modules": 0 to MOST_MODULES, "modules of a genesis file beside those of its chaincodes".
    "held_modules": 0 to MOST_HELD, "modules of a modules file".
};
