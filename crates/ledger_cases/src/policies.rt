//! Policies, and which envelopes they endorse.

use crate::bytes::split_word;
use crate::chains::judge_chain;
use crate::fault::CaseFault;
use crate::tags::{LEDGER, endorsements_of, organisations_of, orgs_of};
use crate::transactions::{chaincode_name, payload_of};
use endorsement_policy::{ChaincodePolicy, Installed, ModuleId, Rules, is_endorsed, satisfied};
use fab_types::{Edition, Envelope};
use policy_language::{OrgSet, Policy, parse};
use std::alloc::Global;
use wasm_profile::Profile;
use world_state::Snapshot;

/// Whether the text spells a policy over the organisations that the first word lists, or its fault.
pub fn show_policy(alloc: Global, rest: &str) -> Result<String, CaseFault> {
    let (known, text) = split_word(rest);
    let fault = parse(alloc, text, &orgs_of(alloc, known)?).err();
    Ok(match fault {
        None => String::from_str(alloc, "policy")?,
        Some(fault) => format!(in alloc; "{fault}")?,
    })
}

/// Whether the organisations that the second word lists satisfy the policy.
pub fn show_satisfied(alloc: Global, rest: &str) -> Result<String, CaseFault> {
    let (known, rest) = split_word(rest);
    let (present, text) = split_word(rest);
    let orgs = OrgSet::new(orgs_of(alloc, present)?).ok_or(CaseFault::BadLine)?;
    let is_satisfied = satisfied(&policy_of(alloc, known, text)?, &orgs);
    Ok(format!(in alloc; "{is_satisfied}")?)
}

/// What a call that does nothing reads: its definition, which is absent.
const NOTHING: &str = "r:0x006b76@-";

/// The parts of a case of endorsement.
#[derive(Clone, Copy)]
struct Case<'a> {
    known: &'a str,
    tags: &'a str,
    text: &'a str,
    words: &'a str,
    chain: &'a str,
}

fn case_of(rest: &str) -> Case<'_> {
    let (known, rest) = split_word(rest);
    let (tags, rest) = split_word(rest);
    let (text, rest) = rest.split_once(" | ").unwrap_or((rest, NOTHING));
    let (words, chain) = rest.split_once(" / ").unwrap_or((rest, ""));
    Case {
        known,
        tags,
        text,
        words,
        chain,
    }
}

/// Whether an envelope with these tags is endorsed under the policy and the rules of an edition, on
/// the state after the chain, which may be empty.
pub fn show_endorsed(
    alloc: Global,
    edition: Edition,
    snapshot: &mut Snapshot,
    rest: &str,
) -> Result<String, CaseFault> {
    let case = case_of(rest);
    if !case.chain.is_empty() {
        judge_chain(alloc, edition, snapshot, case.chain)?;
    }
    let endorsed = is_endorsed(
        alloc,
        &rules_of(alloc, edition, case.known, case.text)?,
        snapshot,
        &envelope_of(alloc, case.tags, case.words)?,
    );
    Ok(format!(in alloc; "{}", endorsed?)?)
}

fn policy_of(alloc: Global, known: &str, text: &str) -> Result<Policy, CaseFault> {
    let parsed = parse(alloc, text, &orgs_of(alloc, known)?);
    parsed.ok().ok_or(CaseFault::BadLine)
}

/// The organisations with their keys, the policy of calls and of upgrades, and a module.
fn rules_of(alloc: Global, edition: Edition, known: &str, text: &str) -> Result<Rules, CaseFault> {
    let installed = installed(alloc, edition, known)?;
    let policies = policies_of(alloc, known, text)?;
    let upgrade = policy_of(alloc, known, text)?;
    Rules::new(LEDGER, edition, policies, upgrade, installed).ok_or(CaseFault::BadLine)
}

/// The policy of calls.
fn policies_of(alloc: Global, known: &str, text: &str) -> Result<Vec<ChaincodePolicy>, CaseFault> {
    let chaincode = chaincode_name()?;
    let policy = policy_of(alloc, known, text)?;
    Ok(vec![in alloc; ChaincodePolicy { chaincode, policy }]?)
}

/// A module of profile 1 whose digest has bytes 7, and the organisations.
fn installed(alloc: Global, edition: Edition, known: &str) -> Result<Installed, CaseFault> {
    let id = ModuleId {
        digest: [7; 32],
        profile: Profile::Core1,
    };
    let modules = vec![in alloc; id]?;
    let organisations = organisations_of(alloc, edition, known)?;
    Ok(Installed::new(alloc, modules, organisations)?)
}

/// The transaction of these words, with these tags.
fn envelope_of(alloc: Global, tags: &str, words: &str) -> Result<Envelope, CaseFault> {
    let payload = payload_of(alloc, [0; 16], words)?;
    let endorsements = endorsements_of(alloc, &payload, tags)?;
    Ok(Envelope {
        payload,
        endorsements,
    })
}
