//! Laws of the grammar and of the readers, for the crates that read by them.

ghost use Rattle.std.specs.Prelude.{◌≡◌, ◌↔◌, ℕ, List};
ghost use Rattle.grammar.specs.Reads.{Reads, SpellsOnce};
ghost use Rattle.wasm_bytes.specs.Spelling.{IsU32, IsS32, IsS64, IsName};
ghost use Rattle.wasm_bytes.specs.Reading.{u32_at, s32_at, s64_at, name_at};
ghost use Rattle.wasm_bytes.specs.Faults.{Begins, InFront, u32_fault, s32_fault, s64_fault};
ghost use Rattle.wasm_bytes.specs.declared.fault.FaultKind.TheVariants.{EndedEarly};

/// What the reading functions give is spelled so, and what is spelled they give, whatever follows.
pub fn readers()
    ensures u32 { Reads IsU32 u32_at }
    ensures i32 { Reads IsS32 s32_at }
    ensures i64 { Reads IsS64 s64_at }
    ensures name { Reads IsName name_at }
{}

/// Beginnings of one list of bytes spell at most one item.
pub fn items_once()
    ensures u32 { SpellsOnce IsU32 }
    ensures i32 { SpellsOnce IsS32 }
    ensures i64 { SpellsOnce IsS64 }
    ensures name { SpellsOnce IsName }
{}

/// Where no number stands, the bytes ended early exactly where they begin some number.
pub fn refusals()
    ensures u32 { (bytes : List ℕ) → ¬ InFront IsU32 bytes →
        (u32_fault bytes ≡ EndedEarly) ↔ Begins IsU32 bytes }
    ensures i32 { (bytes : List ℕ) → ¬ InFront IsS32 bytes →
        (s32_fault bytes ≡ EndedEarly) ↔ Begins IsS32 bytes }
    ensures i64 { (bytes : List ℕ) → ¬ InFront IsS64 bytes →
        (s64_fault bytes ≡ EndedEarly) ↔ Begins IsS64 bytes }
{}
