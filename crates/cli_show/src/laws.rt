//! Laws of the chains that are shown.

ghost use Rattle.std.specs.Prelude.{[], ◌∷◌, ◌++◌, List, Option, ℕ};
ghost use Rattle.block_store.specs.Store.{Loads};
ghost use Rattle.block_store.specs.declared.end.End.{End};
ghost use Rattle.endorsement_policy.specs.Endorsed.{Listed};
ghost use Rattle.fab_types.specs.BlockWithin.{IsBlock};
ghost use Rattle.fab_types.specs.declared.block.Block.{Block};
ghost use Rattle.kept_state.specs.Keeping.{chain_of};
ghost use Rattle.ledger_model.specs.Chain.{Chain};
ghost use Rattle.ledger_setting.specs.Judging.{next_by};
ghost use Rattle.ledger_setting.specs.Rule.{table_of};
ghost use Rattle.store_replay.specs.Lawful.{AreLawful};
ghost use Rattle.store_replay.specs.Replay.{ReplaysFrom};
ghost use Rattle.store_replay.specs.declared.replaying.Replayed.{Replayed};
ghost use Rattle.json_chain.specs.Standing.{IsChainOf};

/// Which tags of a store are shown as right is by who stands in the state before their block: its
/// chain is one of which `json_chain::who_is_shown_stands` speaks, as it is replayed for `show`
/// (`replayed`), as `peer` begins with it (`opened`), and with each block that follows (`grown`).
pub fn stores_hold_chains()
    ensures replayed { (r : Listed) (known : Option (List ℕ)) (p : Replayed) →
        ReplaysFrom (table_of r) known p → IsChainOf r (chain_of p.chain) }
    ensures opened { (r : Listed) (bytes : List ℕ) (chain : Chain) (end : End) →
        Loads 1 bytes chain end → AreLawful (table_of r) [] chain → IsChainOf r chain }
    ensures grown { (r : Listed) (chain : Chain) (b : Block) → IsChainOf r chain → IsBlock b →
        IsChainOf r (chain ++ next_by (table_of r) chain b ∷ []) }
{}
