//! The sentence of a refusal.

use crate::place::Place;
use crate::reader::Reader;
use crate::search::end_of_fault;
use crate::section::{CODE, FUNCTION};
use ledger_table::meaning_of;
use std::alloc::{AllocError, Global};
use wasm_decode::FaultKind;
use wasm_decode::limits::MODULE_BYTES;
use wasm_file::ModuleRefusal;
use wasm_profile::Profile;
use wasm_validate::ValidateFault;

/// Why the bytes give no valid module of a profile, where `valid_module` refused them so: one
/// sentence without an end of line, with the place of the fault. It ends with the number of the
/// refusal in parentheses.
///
/// # Errors
///
/// Only where a growth of memory was refused.
pub fn module_reason(
    alloc: Global,
    profile: Profile,
    bytes: &[u8],
    refusal: &ModuleRefusal,
) -> Result<String, AllocError> {
    match refusal {
        ModuleRefusal::Memory => Err(AllocError),
        ModuleRefusal::Malformed(kind, offset) => malformed_reason(alloc, bytes, *kind, *offset),
        ModuleRefusal::Invalid(fault) => invalid_reason(alloc, profile, bytes, *fault),
    }
}

/// What is wrong at an offset of bytes that spell no module.
fn malformed_reason(
    alloc: Global,
    bytes: &[u8],
    kind: FaultKind,
    offset: usize,
) -> Result<String, AllocError> {
    let mut reader = Reader::new(bytes);
    if kind != FaultKind::EndedEarly {
        reader.until = offset;
    }
    if bytes.len() <= MODULE_BYTES {
        let _ = reader.module();
    }
    let (place, name) = (reader.place_at(bytes, offset), reader.part.name);
    let (count, most) = (reader.part.number, reader.part.most);
    let byte = bytes.get(offset).copied().unwrap_or(0);
    let number = kind.number();
    match kind {
        FaultKind::EndedEarly => {
            format!(in alloc; "{place}the bytes end inside {name} ({number})")
        }
        FaultKind::Magic | FaultKind::Version | FaultKind::SectionOrder | FaultKind::TypeByte => {
            format!(in alloc; "{place}byte {byte:02x} stands where {name} is needed ({number})")
        }
        FaultKind::Limit if count > most => {
            format!(in alloc;
                "{place}{name} is {count}, where at most {most} is allowed ({number})"
            )
        }
        _ => {
            let meaning = meaning_of(u16::from(number));
            format!(in alloc; "{place}{meaning} ({number})")
        }
    }
}

/// Which rule a module breaks, and where.
fn invalid_reason(
    alloc: Global,
    profile: Profile,
    bytes: &[u8],
    fault: ValidateFault,
) -> Result<String, AllocError> {
    let mut place = Place::NOWHERE;
    if fault != ValidateFault::NoInvoke
        && let Some(end) = end_of_fault(alloc, profile, bytes, fault)?
    {
        let mut reader = Reader::new(bytes);
        reader.limit = end;
        let _ = reader.module();
        place = reader.place_at(bytes, end.saturating_sub(1));
    }
    let number = fault.number();
    let meaning = meaning_of(number);
    format!(in alloc; "{place}{meaning} ({number})")
}

impl<'a> Reader<'a> {
    // Its place in a module, with an offset. A function has its index among all, and the name of
    // its first export.
    fn place_at(&self, bytes: &'a [u8], offset: usize) -> Place<'a> {
        let mut place = self.place;
        place.offset = Some(offset);
        if let Some(item) = place.item
            && matches!(place.section, Some(FUNCTION | CODE))
        {
            let function = self.imported.saturating_add(item);
            let mut reader = Reader::new(bytes);
            reader.sought = Some(function);
            let _ = reader.module();
            place.item = Some(function);
            place.name = reader.exported;
        }
        place
    }
}
