//! A module up to some of its items or instructions.

use crate::reader::Reader;
use crate::section::{CODE, FUNCTION};
use std::alloc::{AllocError, Global};
use wasm_decode::limits::MOST_NESTING;

/// A function that is valid by any type: its size, no locals, `unreachable` and `end`.
const ANY_FUNCTION: [u8; 4] = [3, 0, 0x00, 0x0b];

/// The module with the items, and of functions' bodies with the instructions, that begin before an
/// offset. What functions lack then is a body, or the rest of one, that is valid by any type. None
/// where nothing begins behind.
pub(crate) fn module_up_to(
    alloc: Global,
    bytes: &[u8],
    limit: usize,
) -> Result<Option<Vec<u8>>, AllocError> {
    let mut reader = Reader::new(bytes);
    reader.limit = limit;
    if reader.module().is_some() {
        return Ok(None);
    }
    let functions = match reader.section {
        FUNCTION => reader.index,
        _ => reader.functions,
    };
    let mut module = Vec::from_slice(alloc, bytes.get(..reader.start).unwrap_or(bytes))?;
    if reader.section == CODE {
        let mut code = items(alloc, bytes, &reader, functions)?;
        push_body(alloc, bytes, &reader, &mut code)?;
        push_functions(
            &mut code,
            functions.saturating_sub(reader.index).saturating_sub(1),
        )?;
        push_section(&mut module, CODE, &code)?;
    } else {
        let items = items(alloc, bytes, &reader, reader.index)?;
        push_section(&mut module, reader.section, &items)?;
        if reader.section < CODE && functions > 0 {
            let mut code = Vec::from_slice(alloc, &spelled(functions as usize))?;
            push_functions(&mut code, functions)?;
            push_section(&mut module, CODE, &code)?;
        }
    }
    Ok(Some(module))
}

/// A count of items, and those of the section before the one where a reader stopped.
fn items(
    alloc: Global,
    bytes: &[u8],
    reader: &Reader<'_>,
    count: u32,
) -> Result<Vec<u8>, AllocError> {
    let mut items = Vec::from_slice(alloc, &spelled(count as usize))?;
    items.extend_from_slice(bytes.get(reader.items..reader.item).unwrap_or(&[]))?;
    Ok(items)
}

/// Adds the body in which a reader stopped: what it read of it, and an end of each open block that
/// is not reached.
fn push_body(
    alloc: Global,
    bytes: &[u8],
    reader: &Reader<'_>,
    code: &mut Vec<u8>,
) -> Result<(), AllocError> {
    let read = bytes
        .get(reader.body..reader.cursor.offset())
        .unwrap_or(&[]);
    let mut body = Vec::from_slice(alloc, read)?;
    let mut open = reader.open;
    for _ in 0..=MOST_NESTING {
        let end: &[u8] = if open > 1 && open & 1 == 1 {
            &[0x00, 0x05, 0x00, 0x0b]
        } else {
            &[0x00, 0x0b]
        };
        body.extend_from_slice(end)?;
        open >>= 1;
        if open == 0 {
            break;
        }
    }
    code.extend_from_slice(&spelled(body.len()))?;
    code.extend_from_slice(&body)?;
    Ok(())
}

/// Adds so many functions that are valid by any type.
fn push_functions(code: &mut Vec<u8>, count: u32) -> Result<(), AllocError> {
    for _ in 0..count {
        code.extend_from_slice(&ANY_FUNCTION)?;
    }
    Ok(())
}

/// Adds a section.
fn push_section(module: &mut Vec<u8>, id: u8, content: &[u8]) -> Result<(), AllocError> {
    module.push(id)?;
    module.extend_from_slice(&spelled(content.len()))?;
    module.extend_from_slice(content)?;
    Ok(())
}

/// A number in LEB128, of three bytes.
fn spelled(number: usize) -> [u8; 3] {
    let low = (number % 128) as u8;
    let middle = (number / 128 % 128) as u8;
    let high = (number / 16_384 % 128) as u8;
    [low | 128, middle | 128, high]
}
