//! Laws of memberships, of definitions and of the keys of chaincodes.

ghost use Rattle.ledger_model.specs.Chain.{Bytes, Chain};
ghost use Rattle.endorsement_policy.specs.Endorsed.{Listed};
ghost use Rattle.ledger_setting.specs.Owned.{AreOwned};
ghost use Rattle.ledger_setting.specs.Amended.{AreAmended, AreBlocks, AreNamed, AreUpgraded, IsOnceInABlock, is_amendment, is_upgrade_of};

/// Who the members are is decided by members: in a chain with the table's flags, the last writer of
/// the key of the membership is a VALID amendment, which was the next membership before its block,
/// and on which right tags of those who stood there satisfied the policy that stood there
/// (`amended`). Its premise, that upgrades are of chaincodes with names, holds where blocks are
/// within the limits, as those of each snapshot are (`named`).
pub fn memberships_are_amended()
    ensures amended { (listed : Listed) → AreAmended listed }
    ensures named { (chain : Chain) → AreBlocks chain → AreNamed chain }
{}

/// Which module and which policy a chaincode has is decided by members too: the last writer of the
/// key of its definition is a VALID upgrade of it, to a definition that can be used, on which right
/// tags of those who stood before its block satisfied the policy that stood there.
pub fn definitions_are_upgraded()
    ensures { (listed : Listed) → AreUpgraded listed }
{}

/// Of the VALID transactions of a block at most one is an amendment (`amendments`), and at most one
/// an upgrade of a chaincode (`upgrades`).
pub fn a_block_changes_a_key_once()
    ensures amendments { (listed : Listed) → IsOnceInABlock listed is_amendment }
    ensures upgrades { (listed : Listed) (name : Bytes) →
        IsOnceInABlock listed (is_upgrade_of name) }
{}

/// Under rules 2 what stands below a chaincode's name, and a `/`, was put by that chaincode: in a
/// chain with the table's flags, of blocks within the limits, the last writer of such a key is a
/// VALID call of it, on which right tags of those who stood before its block satisfied the policy
/// that the chaincode had there.
pub fn keys_are_put_by_their_chaincode()
    ensures { (listed : Listed) → AreOwned listed }
{}
