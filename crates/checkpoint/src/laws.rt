//! What holds of checkpoints.

ghost use Rattle.std.specs.Prelude.{◌≡◌, ◌<◌, ◌^◌, List, ℕ, length};
ghost use Rattle.ledger_model.specs.Chain.{Chain, history};
ghost use Rattle.world_state.specs.Kept.{amendments_of};
ghost use Rattle.checkpoint.specs.Checkpoint.{AreKeptAlike, IsCheckpointOf};

/// Two checkpoints of one chain by one genesis file have the same bytes. It does nothing: its
/// contract is the law.
pub fn checkpoints_agree()
    ensures { (genesis : List ℕ) (chain : Chain) (bytes other : List ℕ) →
        IsCheckpointOf genesis bytes chain → IsCheckpointOf genesis other chain → bytes ≡ other }
{}

/// Chains with one checkpoint have the same genesis file, and the same is kept of them: so chains of
/// which other things are kept have other checkpoints. It does nothing: its contract is the law.
pub fn checkpoints_differ()
    ensures { (genesis other bytes : List ℕ) (chain rival : Chain) → length genesis ≡ 32 →
        length other ≡ 32 → length (amendments_of (history chain)) < 2 ^ 32 →
        length (amendments_of (history rival)) < 2 ^ 32 → IsCheckpointOf genesis bytes chain →
        IsCheckpointOf other bytes rival → (genesis ≡ other) × AreKeptAlike chain rival }
{}
