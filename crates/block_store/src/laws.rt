//! Laws of the store.

ghost use Rattle.std.specs.Prelude.{◌≡◌, ℕ, suc, ◌<◌, List, ◌++◌, length, take};
ghost use Rattle.std.specs.List.{AllByRecursion, flat_map};
ghost use Rattle.fab_types.specs.Committed.{Committed};
ghost use Rattle.block_store.specs.Record.{record_bytes, IsRecord};
ghost use Rattle.block_store.specs.Store.{AreRecords, Loads};
ghost use Rattle.block_store.specs.Progress.{FeedsAll, Progress, at_start, end_of};
ghost use Rattle.block_store.specs.declared.end.End.{End};
ghost use Rattle.block_store.specs.declared.end.End.TheVariants.{Clean, Torn};

/// A store to which the blocks of a chain were appended, from block 1 on, loads as them, with
/// nothing behind them.
pub fn appended_loads()
    ensures { (cs : List Committed) → AreRecords 1 cs →
        Loads 1 (flat_map record_bytes cs) cs Clean }
{}

/// A store behind whose records stands a beginning of the next one, as an append leaves it whose
/// device failed, loads as those records, torn.
pub fn beginning_loads_as_torn()
    ensures { (cs : List Committed) (c : Committed) (k : ℕ) → AreRecords 1 cs →
        IsRecord (suc (length cs)) c → 0 < k → k < length (record_bytes c) →
        Loads 1 (flat_map record_bytes cs ++ take k (record_bytes c)) cs Torn }
{}

/// However a store is cut into pieces, the records that a reader gives for them one after another,
/// and its end, are those of the whole.
pub fn pieces_load()
    ensures { (pieces : List (List ℕ)) (cs : List Committed) (q : Progress) →
        FeedsAll at_start pieces cs q → Loads 1 (flat_map (λ piece. piece) pieces) cs (end_of q) }
{}

/// Each list of bytes is a store: it has records and an end.
pub fn each_store_loads()
    ensures { (bytes : List ℕ) → AllByRecursion (λ b. b < 256) bytes →
        (cs : List Committed) × (e : End) × Loads 1 bytes cs e }
{}

/// A store has one list of records and one end.
pub fn each_store_loads_one_way()
    ensures { (n : ℕ) (bytes : List ℕ) (cs ds : List Committed) (e f : End) → Loads n bytes cs e →
        Loads n bytes ds f → (cs ≡ ds) × (e ≡ f) }
{}
