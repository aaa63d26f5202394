//! Cases `genesis TEXT` and `modules TEXT`: what the genesis has that a text spells, or the modules
//! file, or why it spells none.

use crate::texts::write_hex;
use chaincode_book::Held;
use endorsement_policy::ModuleId;
use json_genesis::{read_genesis, read_modules};
use ledger_setting::Genesis;
use std::alloc::{AllocError, Global};
use std::fmt::Write;
use wasm_profile::Profile;

/// The answer of a case.
pub fn genesis_file(alloc: Global, text: &str) -> Result<String, AllocError> {
    match read_genesis(alloc, text) {
        Ok(genesis) => contents(alloc, &genesis),
        Err(refusal) => format!(in alloc; "{refusal}"),
    }
}

/// The answer of a case of a modules file: how many modules it has, and their digests.
pub fn modules_file(alloc: Global, text: &str) -> Result<String, AllocError> {
    match read_modules(alloc, text) {
        Ok(modules) => held(alloc, &modules),
        Err(refusal) => format!(in alloc; "{refusal}"),
    }
}

fn held(alloc: Global, modules: &[Held]) -> Result<String, AllocError> {
    let mut text = format!(in alloc; "read modules={}", modules.len())?;
    for module in modules {
        text.push(' ')?;
        write_id(&mut text, &module.id)?;
    }
    Ok(text)
}

/// How many there are of each, the numbers, and the digests of the modules.
fn contents(alloc: Global, genesis: &Genesis) -> Result<String, AllocError> {
    let book = &genesis.book;
    let mut text = format!(in alloc;
        "read chaincodes={} modules={} policies={} peers={}",
        book.chaincodes().len(),
        book.modules().len(),
        genesis.rules.policies().len(),
        genesis.peers.len()
    )?;
    write!(
        text,
        " seats={} queue={} count={} preferred={} absolute={} reorder={} rules={} installed=",
        genesis.seats,
        genesis.queue,
        genesis.count,
        genesis.preferred,
        genesis.absolute,
        genesis.reorder,
        genesis.rules.edition().number()
    )?;
    write_installed(&mut text, book.installed().modules())?;
    Ok(text)
}

/// The digests in hex, with `/2` behind those of profile 2, and commas between them.
fn write_installed(text: &mut String, ids: &[ModuleId]) -> Result<(), AllocError> {
    for (place, id) in ids.iter().enumerate() {
        if place > 0 {
            text.push(',')?;
        }
        write_id(text, id)?;
    }
    Ok(())
}

fn write_id(text: &mut String, id: &ModuleId) -> Result<(), AllocError> {
    write_hex(text, &id.digest)?;
    if id.profile == Profile::SignExtension {
        text.push_str("/2")?;
    }
    Ok(())
}
