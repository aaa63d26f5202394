//! The recheck of a payload.

ghost use Rattle.std.specs.Prelude.{◌≡◌, true, OnOk, IfErr};
ghost use Rattle.ledger_model.specs.Chain.{history};
ghost use Rattle.ledger_model.specs.State.{state};
ghost use Rattle.world_state.specs.Kept.{state_in};
ghost use Rattle.mvcc_validate.specs.Current.{is_current};
ghost use Rattle.endorser.specs.Rechecks.{IsRecheckRefused};

use fab_types::Payload;
use mvcc_validate::is_current_behind;
use simulator::SimRefusal;
use std::alloc::Global;
use world_state::{Past, Snapshot};

/// Looks whether all that a payload read is as it is in this snapshot's state.
///
/// Refused as stale (405) where a read has another version there, or the first keys or versions of
/// a range, up to its limit, differ; and for want of memory (9).
pub fn recheck(alloc: Global, payload: &Payload, snapshot: &Snapshot) -> Result<(), SimRefusal>
    ensures current { OnOk result (is_current (state (history snapshot.now)) payload.now ≡ true) }
    ensures refused { IfErr result
        (λ r. IsRecheckRefused (state (history snapshot.now)) payload.now r) }
{
    recheck_behind(alloc, payload, snapshot)
}

/// Looks whether all that a payload read is as it is behind a chain, as `recheck` does in a
/// snapshot's state.
pub fn recheck_behind<P: Past>(alloc: Global, payload: &Payload, past: &P) -> Result<(), SimRefusal>
    ensures current { OnOk result
        (is_current (state_in (P.kept past.now)) payload.now ≡ true) }
    ensures refused { IfErr result
        (λ r. IsRecheckRefused (state_in (P.kept past.now)) payload.now r) }
{
    if is_current_behind(alloc, past, payload)? {
        Ok(())
    } else {
        Err(SimRefusal::Stale)
    }
}
