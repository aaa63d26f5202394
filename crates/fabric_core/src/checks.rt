//! Who checks the envelopes of a block.

ghost use Rattle.std.specs.Prelude.{◌≡◌, ⊤, IfOk, map};
ghost use Rattle.std.specs.Thread.{IsSync};
ghost use Rattle.ledger_model.specs.Chain.{history};
ghost use Rattle.ledger_model.specs.State.{state};
ghost use Rattle.endorsement_policy.specs.Endorsed.{is_endorsed};

use endorsement_policy::{Rules, Workers, check_plain};
use fab_types::Envelope;
use ledger_setting::check_by_workers;
use std::alloc::{AllocError, Global};
use std::thread::Threads;
use world_state::Snapshot;

/// Who checks which envelopes of a block are endorsed. The answer is the same, whoever does.
pub trait Checks {
    // Holds of who may check.
    ghost ready: { Self → Type 0 } = { λ _. ⊤ };

    /// For each envelope whether it is endorsed on the state after a chain. The only error is want
    /// of memory.
    fn check(
        &self,
        alloc: Global,
        rules: &Rules,
        snapshot: &Snapshot,
        envelopes: &[Envelope],
    ) -> Result<Vec<bool>, AllocError>
        requires { ready self.now }
        ensures { IfOk result (λ v. v.items
            ≡ map (is_endorsed rules.now (state (history snapshot.now)))
            envelopes.now) };
}

/// The caller's thread alone.
pub struct Alone;

impl Checks for Alone {
    fn check(
        &self,
        alloc: Global,
        rules: &Rules,
        snapshot: &Snapshot,
        envelopes: &[Envelope],
    ) -> Result<Vec<bool>, AllocError> {
        check_plain(alloc, rules, snapshot, envelopes)
    }
}

/// So many workers at once, by a handle that threads may share.
impl<T: Threads + Sync> Checks for Workers<'_, T> {
    ghost ready = { λ _. IsSync T.row };

    fn check(
        &self,
        alloc: Global,
        rules: &Rules,
        snapshot: &Snapshot,
        envelopes: &[Envelope],
    ) -> Result<Vec<bool>, AllocError> {
        check_by_workers(self, alloc, rules, snapshot, envelopes)
    }
}
