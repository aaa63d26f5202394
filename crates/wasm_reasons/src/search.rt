//! The search for what is not valid in a module.

use crate::cut::module_up_to;
use std::alloc::{AllocError, Global};
use wasm_file::{ModuleRefusal, defined_functions};
use wasm_profile::Profile;
use wasm_validate::ValidateFault;

/// The end of the first byte of the item, or of the instruction of a function, by which a module
/// has a fault. None if no search tells it.
///
/// Rules are tested in the order of the bytes, so that what ends behind has the fault, and what
/// ends before has not.
pub(crate) fn end_of_fault(
    alloc: Global,
    profile: Profile,
    bytes: &[u8],
    fault: ValidateFault,
) -> Result<Option<usize>, AllocError> {
    let (mut without, mut with) = (0usize, bytes.len());
    for _ in 0..usize::BITS {
        let middle = without.saturating_add(with.saturating_sub(without) / 2);
        if middle == without {
            break;
        }
        // Most faults stand in front, where little is read.
        let limit = middle.min(without.saturating_mul(4).saturating_add(256));
        match has_fault(alloc, profile, bytes, limit, fault)? {
            Some(true) => with = limit,
            Some(false) => without = limit,
            None => return Ok(None),
        }
    }
    Ok(Some(with))
}

/// Whether the module up to an offset has this fault first. None where that is none.
fn has_fault(
    alloc: Global,
    profile: Profile,
    bytes: &[u8],
    limit: usize,
    fault: ValidateFault,
) -> Result<Option<bool>, AllocError> {
    let Some(module) = module_up_to(alloc, bytes, limit)? else {
        return Ok(Some(true));
    };
    match defined_functions(alloc, &module, profile) {
        Err(ModuleRefusal::Memory) => Err(AllocError),
        Err(ModuleRefusal::Malformed(..)) => Ok(None),
        Err(ModuleRefusal::Invalid(found)) => Ok(Some(found == fault)),
        Ok(_) => Ok(Some(false)),
    }
}
