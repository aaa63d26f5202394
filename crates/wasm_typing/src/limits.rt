//! The limits of tables and memories (Core 1.0, sections 3.2.1, 3.2.3 and 3.2.4).

ghost use Rattle.std.specs.Prelude.{◌≡◌, ◌≤◌, ℕ, length, IfOk, IfErr, IsTrue, ◌↔◌, Some};
ghost use Rattle.wasm_ast.specs.declared.types.Limits.{Limits};
ghost use Rattle.wasm_typing.specs.Typing.{at};
ghost use Rattle.wasm_typing.specs.ModuleRules.{IsTable, IsMemory};
ghost use Rattle.wasm_typing.specs.Broken.{Broken};

use crate::fault::ValidateFault;
use wasm_ast::{Limits, Module};

// How many pages of 65,536 bytes a memory can have.
const MAX_PAGES: u32 = 65_536;

/// Whether there is at most one table, with limits in order.
pub fn check_tables(given: &Module) -> Result<(), ValidateFault>
    ensures one { IfOk result (λ _. length given.now.tables ≤ 1) }
    ensures limits { IfOk result
        (λ _. (k : ℕ) → (l : Limits) → at given.now.tables k ≡ Some l → IsTable l) }
    ensures broken { IfErr result (λ e. Broken e given.now) }
{
    if given.tables.len() > 1 {
        return Err(ValidateFault::Limits);
    }
    for limits in given.tables.as_slice() {
        if !are_ordered(limits) {
            return Err(ValidateFault::Limits);
        }
    }
    Ok(())
}

// Whether limits are those of a table.
fn are_ordered(limits: &Limits) -> bool
    ensures { IsTrue result ↔ IsTable limits.now }
{
    match limits.greatest {
        None => true,
        Some(greatest) => limits.least <= greatest,
    }
}

/// Whether there is at most one memory, with limits in order and range.
pub fn check_memories(given: &Module) -> Result<(), ValidateFault>
    ensures one { IfOk result (λ _. length given.now.memories ≤ 1) }
    ensures limits { IfOk result
        (λ _. (k : ℕ) → (l : Limits) → at given.now.memories k ≡ Some l → IsMemory l) }
    ensures broken { IfErr result (λ e. Broken e given.now) }
{
    if given.memories.len() > 1 {
        return Err(ValidateFault::Limits);
    }
    for limits in given.memories.as_slice() {
        if !are_pages(limits) {
            return Err(ValidateFault::Limits);
        }
    }
    Ok(())
}

// Whether limits are those of a memory.
fn are_pages(limits: &Limits) -> bool
    ensures { IsTrue result ↔ IsMemory limits.now }
{
    match limits.greatest {
        None => limits.least <= MAX_PAGES,
        Some(greatest) => limits.least <= greatest && greatest <= MAX_PAGES,
    }
}
