//! What bytes are as a module.

use crate::bytes::bytes_of;
use crate::fault::CaseFault;
use crate::runs::{Question, answer_question};
use std::alloc::{AllocError, Global};
use wasm_ast::Module;
use wasm_decode::decode_as;
use wasm_profile::Profile;
use wasm_validate::{ValidModule, validate};

/// What is shown of a module, valid or not.
#[derive(Clone, Copy)]
pub enum Look {
    /// How many parts of each kind it has.
    Counts,
    /// All of it, as it is printed for debugging.
    Whole,
}

/// What is shown of the module of a profile that the bytes spell.
pub fn show_module(
    alloc: Global,
    look: Look,
    profile: Profile,
    pieces: &str,
) -> Result<String, CaseFault> {
    let module = decoded(alloc, profile, pieces)?;
    shown(alloc, look, &module)
}

fn shown(alloc: Global, look: Look, module: &Module) -> Result<String, CaseFault> {
    Ok(match look {
        Look::Counts => part_counts(alloc, module)?,
        Look::Whole => format!(in alloc; "{module:?}")?,
    })
}

fn part_counts(alloc: Global, module: &Module) -> Result<String, AllocError> {
    let (types, imports) = (module.types.len(), module.imports.len());
    let (functions, tables) = (module.functions.len(), module.tables.len());
    let (memories, globals) = (module.memories.len(), module.globals.len());
    let (exports, elements) = (module.exports.len(), module.elements.len());
    let data = module.data.len();
    format!(in alloc;
        "module types={types} imports={imports} functions={functions} tables={tables} memories={memories} globals={globals} exports={exports} elements={elements} data={data}"
    )
}

/// The answer to a question about the valid module of a profile that the bytes spell.
pub fn ask_module(
    alloc: Global,
    question: Question,
    profile: Profile,
    pieces: &str,
) -> Result<String, CaseFault> {
    let valid = valid_module(alloc, profile, pieces)?;
    answer_question(alloc, question, &valid)
}

/// The valid module of a profile that the bytes spell.
pub fn valid_module(
    alloc: Global,
    profile: Profile,
    pieces: &str,
) -> Result<ValidModule, CaseFault> {
    Ok(validate(alloc, decoded(alloc, profile, pieces)?)?)
}

fn decoded(alloc: Global, profile: Profile, pieces: &str) -> Result<Module, CaseFault> {
    let bytes = bytes_of(alloc, pieces)?;
    Ok(decode_as(alloc, &bytes, profile)?)
}
