//! The flags of transactions.

ghost use Rattle.std.specs.Prelude.{◌≡◌, map};
ghost use Rattle.ledger_table.specs.Table.{all_flags, flag_row};

use fab_types::Flag;

/// A flag's number, its name, and what is so of a transaction that has it.
pub type FlagRow = (u8, &'static str, &'static str);

/// All flags. What names the table has all of it in its proof, so this alone does.
pub fn flag_rows() -> &'static [FlagRow]
    ensures { map flag_row result.now ≡ all_flags }
{
    &FLAGS
}

macro_rules! rows {
    ($($flag:ident: $name:literal, $meaning:literal.)*) => {
        [$((Flag::$flag as u8, $name, $meaning)),*]
    };
}

static FLAGS: [FlagRow; 5] = rows! {
    Valid: "VALID", "it changes the state".
    EndorsementPolicyFailure: "ENDORSEMENT_POLICY_FAILURE",
        "those who endorsed do not satisfy the policy".
    MvccReadConflict: "MVCC_READ_CONFLICT", "a key that it read has another version".
    PhantomReadConflict: "PHANTOM_READ_CONFLICT", "a range that it read has other keys or versions".
    DuplicateTxid: "DUPLICATE_TXID", "its id stands earlier in the chain".
};
