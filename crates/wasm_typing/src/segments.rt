//! Element and data segments (Core 1.0, sections 3.4.5 and 3.4.6).

ghost use Rattle.std.specs.Prelude.{◌≡◌, ◌≤◌, ◌<◌, ◌+◌, ◌*◌, ℕ, length, false, IfOk, IfErr, IsTrue, ◌↔◌, Some};
ghost use Rattle.wasm_ast.specs.declared.module.ElementSegment.{ElementSegment};
ghost use Rattle.wasm_ast.specs.declared.module.DataSegment.{DataSegment};
ghost use Rattle.wasm_typing.specs.Typing.{at};
ghost use Rattle.wasm_typing.specs.ModuleRules.{type_indices, IsElement, IsData};
ghost use Rattle.wasm_typing.specs.Broken.{Broken};

use crate::fault::ValidateFault;
use crate::globals::constant_of;
use wasm_ast::{DataSegment, ElementSegment, Module, ValueType};

const PAGE_BYTES: u64 = 65_536;

/// Whether each element segment names functions that there are, and lies in the least size of its
/// table.
pub fn check_elements(given: &Module, functions: &[u32]) -> Result<(), ValidateFault>
    requires { functions.now ≡ type_indices given.now }
    ensures inside { IfOk result
        (λ _. (k : ℕ) → (e : ElementSegment) → at given.now.elements k ≡ Some e →
        IsElement given.now e) }
    ensures broken { IfErr result (λ e. Broken e given.now) }
{
    for segment in given.elements.as_slice() {
        check_element(given, functions, segment)?;
    }
    Ok(())
}

// A segment of a table that is there, of functions that are there, from one constant on.
fn check_element(
    given: &Module,
    functions: &[u32],
    segment: &ElementSegment,
) -> Result<(), ValidateFault>
    requires { functions.now ≡ type_indices given.now }
    ensures inside { IfOk result (λ _. IsElement given.now segment.now) }
    ensures broken { IfErr result
        (λ e. (k : ℕ) → at given.now.elements k ≡ Some segment.now → Broken e given.now) }
{
    let Some(limits) = given.tables.as_slice().get(segment.table as usize) else {
        return Err(ValidateFault::Index);
    };
    if !are_below(segment.functions.as_slice(), functions.len()) {
        return Err(ValidateFault::Index);
    }
    let Some(offset) = constant_of(&segment.offset, ValueType::I32) else {
        return Err(ValidateFault::Initializer);
    };
    if !is_inside(offset, segment.functions.len(), limits.least as u64) {
        return Err(ValidateFault::Segment);
    }
    Ok(())
}

// Whether each of these indices is one of so many.
fn are_below(indices: &[u32], count: usize) -> bool
    ensures all { IsTrue result → (k : ℕ) → (i : ℕ) → at indices.now k ≡ Some i → i < count }
    ensures some { result ≡ false → (k : ℕ) × (i : ℕ) × (at indices.now k ≡ Some i) × (count ≤ i) }
{
    for index in indices {
        if *index as usize >= count {
            return false;
        }
    }
    true
}

// Whether so many items from an offset on lie in a room.
fn is_inside(offset: u64, count: usize, room: u64) -> bool
    ensures { IsTrue result ↔ (offset + count ≤ room) }
{
    offset <= room && count as u64 <= room - offset
}

/// Whether each data segment lies in the least size of its memory.
pub fn check_data(given: &Module) -> Result<(), ValidateFault>
    ensures inside { IfOk result
        (λ _. (k : ℕ) → (d : DataSegment) → at given.now.data k ≡ Some d → IsData given.now d) }
    ensures broken { IfErr result (λ e. Broken e given.now) }
{
    for segment in given.data.as_slice() {
        check_data_segment(given, segment)?;
    }
    Ok(())
}

// A segment of a memory that is there, from one constant on.
fn check_data_segment(given: &Module, segment: &DataSegment) -> Result<(), ValidateFault>
    ensures inside { IfOk result (λ _. IsData given.now segment.now) }
    ensures broken { IfErr result
        (λ e. (k : ℕ) → at given.now.data k ≡ Some segment.now → Broken e given.now) }
{
    let Some(limits) = given.memories.as_slice().get(segment.memory as usize) else {
        return Err(ValidateFault::Index);
    };
    let Some(offset) = constant_of(&segment.offset, ValueType::I32) else {
        return Err(ValidateFault::Initializer);
    };
    let room = PAGE_BYTES * limits.least as u64;
    if !is_inside(offset, segment.bytes.len(), room) {
        return Err(ValidateFault::Segment);
    }
    Ok(())
}
