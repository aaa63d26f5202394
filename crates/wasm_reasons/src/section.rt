//! The sections of a module, by their ids (Core 1.0, section 5.5.2).

use wasm_decode::limits::{MOST_FUNCTIONS, MOST_PARTS, MOST_TYPES};

pub(crate) const CUSTOM: u8 = 0;

pub(crate) const TYPE: u8 = 1;

pub(crate) const IMPORT: u8 = 2;

pub(crate) const FUNCTION: u8 = 3;

pub(crate) const TABLE: u8 = 4;

pub(crate) const MEMORY: u8 = 5;

pub(crate) const GLOBAL: u8 = 6;

pub(crate) const EXPORT: u8 = 7;

pub(crate) const ELEMENT: u8 = 9;

pub(crate) const CODE: u8 = 10;

pub(crate) const DATA: u8 = 11;

/// The standard's name of a section. It is empty where no section has the id.
pub(crate) fn section_name(id: u8) -> &'static str {
    let names = "custom type import function table memory global export start element code data";
    names.split_whitespace().nth(id as usize).unwrap_or("")
}

/// What a section has items of.
pub(crate) fn item_noun(id: u8) -> &'static str {
    match id {
        CODE => "function",
        ELEMENT => "element segment",
        DATA => "data segment",
        _ => section_name(id),
    }
}

/// The most items that a section may have.
pub(crate) fn most_items(id: u8) -> u32 {
    match id {
        TYPE => MOST_TYPES,
        FUNCTION => MOST_FUNCTIONS,
        CODE => MOST_FUNCTIONS,
        _ => MOST_PARTS,
    }
}
