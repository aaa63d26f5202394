//! Calls and upgrades of a chaincode, each on the state that the earlier ones leave.

use crate::bytes::{split_fuel, split_word};
use crate::chains::next_block;
use crate::fault::CaseFault;
use crate::modules::valid_module;
use crate::tags::organisations_of;
use crate::texts::{separate, write_payload};
use crate::transactions::{call_with, change_of, name_of, unendorsed};
use endorsement_policy::{Installed, ModuleId};
use fab_types::{Edition, Flag, Payload, Proposal, Value};
use simulator::{Book, Chaincode, SimRefusal, simulate};
use std::alloc::{AllocError, Global};
use std::fmt::Write;
use wasm_profile::Profile;
use wasm_validate::ValidModule;
use world_state::Snapshot;

/// The payload or the refusal of each call of a module of a profile.
pub fn simulate_calls(
    alloc: Global,
    edition: Edition,
    snapshot: &mut Snapshot,
    text: &str,
    profile: Profile,
) -> Result<String, CaseFault> {
    let (head, calls) = text.split_once(" |").ok_or(CaseFault::BadLine)?;
    let book = book_of(alloc, edition, head, profile)?;
    call_each(alloc, &book, snapshot, calls)
}

/// The book that has the module of a profile under a name, by `NAME FUEL MODULE`.
fn book_of(
    alloc: Global,
    edition: Edition,
    head: &str,
    profile: Profile,
) -> Result<Book, CaseFault> {
    let installed = installed(alloc, profile)?;
    let chaincodes = chaincodes_of(alloc, head, profile)?;
    let (modules, held) = (Vec::new(alloc), Vec::new(alloc));
    Book::new(edition, chaincodes, modules, installed, held).ok_or(CaseFault::BadLine)
}

/// The one chaincode of the book.
fn chaincodes_of(alloc: Global, head: &str, profile: Profile) -> Result<Vec<Chaincode>, CaseFault> {
    let (name, rest) = split_word(head);
    let (fuel, pieces) = split_fuel(rest)?;
    let name = name_of(alloc, name)?;
    let module = module_of(alloc, pieces, profile)?;
    Ok(vec![in alloc; Chaincode { name, module, fuel }]?)
}

/// A module of this profile whose digest has bytes 7, and the organisation A.
fn installed(alloc: Global, profile: Profile) -> Result<Installed, CaseFault> {
    let digest = [7; 32];
    let modules = vec![in alloc; ModuleId { digest, profile }]?;
    let organisations = organisations_of(alloc, Edition::First, "A")?;
    Ok(Installed::new(alloc, modules, organisations)?)
}

/// The valid module of a profile that the bytes spell. A bad line where they spell none.
fn module_of(alloc: Global, pieces: &str, profile: Profile) -> Result<ValidModule, CaseFault> {
    match valid_module(alloc, profile, pieces) {
        Ok(module) => Ok(module),
        Err(CaseFault::Memory) => Err(CaseFault::Memory),
        Err(_) => Err(CaseFault::BadLine),
    }
}

/// What each call gives, on the state that the earlier ones leave.
fn call_each(
    alloc: Global,
    book: &Book,
    snapshot: &mut Snapshot,
    calls: &str,
) -> Result<String, CaseFault> {
    let mut answer = String::new(alloc);
    for text in calls.split(" |") {
        separate(&mut answer, " / ")?;
        call_once(alloc, &mut answer, book, snapshot, text)?;
    }
    Ok(answer)
}

/// Adds what a call gives to the answer, and a block with its payload, if it has one, to the
/// snapshot.
fn call_once(
    alloc: Global,
    answer: &mut String,
    book: &Book,
    snapshot: &mut Snapshot,
    text: &str,
) -> Result<(), CaseFault> {
    let simulated = simulate(alloc, book, snapshot, &proposal_in(alloc, text)?);
    match simulated {
        Ok(payload) => {
            write_payload(answer, &payload)?;
            extend_by(alloc, snapshot, payload)
        }
        Err(refusal) => Ok(write_refusal(answer, refusal)?),
    }
}

/// The upgrade of `kv` or the amendment where the text has a colon, or the call with the text,
/// behind the blank.
fn proposal_in(alloc: Global, text: &str) -> Result<Proposal, CaseFault> {
    let text = text.strip_prefix(" ").unwrap_or(text);
    match text.split_once(':') {
        Some((kind, text)) => change_of(alloc, [0; 16], kind, text),
        None => {
            let argument = Value::new(text.as_bytes().to_vec(alloc)?).ok_or(CaseFault::BadLine)?;
            call_with(argument, [0; 16])
        }
    }
}

/// The text of a refusal, and the fuel used up to a trap.
fn write_refusal(answer: &mut String, refusal: SimRefusal) -> Result<(), AllocError> {
    write!(answer, "{refusal}")?;
    match refusal {
        SimRefusal::Trapped { used, .. } => write!(answer, " used {used}"),
        _ => Ok(()),
    }
}

/// Adds a block of a payload alone, which is VALID, to the snapshot.
fn extend_by(alloc: Global, snapshot: &mut Snapshot, payload: Payload) -> Result<(), CaseFault> {
    let flags = vec![in alloc; Flag::Valid]?;
    let envelopes = vec![in alloc; unendorsed(alloc, payload)]?;
    let block = next_block(snapshot, envelopes)?;
    *snapshot = snapshot.extended(alloc, block, flags)?;
    Ok(())
}
