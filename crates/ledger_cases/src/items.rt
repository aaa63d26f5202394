//! Items at the front of bytes, and places of instructions.

use crate::bytes::{bytes_of, split_word};
use crate::fault::CaseFault;
use crate::texts::separate;
use std::alloc::Global;
use std::fmt::Write;
use wasm_ast::Position;
use wasm_bytes::Cursor;

/// The items at the front of the bytes, of the kinds that the first word lists, with blanks between
/// them.
pub fn read_items(alloc: Global, text: &str) -> Result<String, CaseFault> {
    let (kinds, pieces) = split_word(text);
    let bytes = bytes_of(alloc, pieces)?;
    let mut cursor = Cursor::new(&bytes);
    let mut answer = String::new(alloc);
    for kind in kinds.split(',') {
        separate(&mut answer, " ")?;
        write_item(&mut answer, kind, &mut cursor)?;
    }
    Ok(answer)
}

/// Adds the item of a kind at the place, or the offset of the place.
fn write_item(answer: &mut String, kind: &str, cursor: &mut Cursor<'_>) -> Result<(), CaseFault> {
    match kind {
        "at" => Ok(write!(answer, "to {}", cursor.offset())?),
        "byte" => Ok(write!(answer, "{}", cursor.byte()?)?),
        "u32" => Ok(write!(answer, "{}", cursor.u32_leb()?)?),
        "i32" => Ok(write!(answer, "{}", cursor.i32_leb()?)?),
        "i64" => Ok(write!(answer, "{}", cursor.i64_leb()?)?),
        "name" => Ok(answer.push_str(cursor.name()?)?),
        _ => Err(CaseFault::BadLine),
    }
}

/// The place of the instruction of a number in the function of a number, as it is printed.
pub fn show_position(alloc: Global, text: &str) -> Result<String, CaseFault> {
    let (function, instruction) = split_word(text);
    let position = Position {
        function: function.parse::<u32>()?,
        instruction: instruction.parse::<u32>()?,
    };
    Ok(format!(in alloc; "{position}")?)
}
