//! What organisations put on payloads.

ghost use Rattle.std.specs.Prelude.{◌≡◌, IfOk, option_map};
ghost use Rattle.endorsement_policy.specs.Endorsed.{key_of, seal_of};
ghost use Rattle.endorsement_policy.specs.Judge.{plain_after, plain_in};

use endorsement_policy::{Rules, Standing};
use fab_types::{Endorsement, OrgName, Payload};
use org_keys::{OrgKey, Signers};
use std::alloc::{AllocError, Global};
use world_state::{Snapshot, StateMap};

/// An organisation's endorsement of a payload: the tag that the seeds at hand make of its bytes for
/// the key that the organisation has in this snapshot's state, by the membership there, else by the
/// genesis. Without a key or its seed, the tag is made with the empty key and counts for nothing.
/// The error is of memory.
pub fn seal(
    alloc: Global,
    rules: &Rules,
    signers: &Signers,
    snapshot: &Snapshot,
    org: &OrgName,
    payload: &Payload,
) -> Result<Endorsement, AllocError>
    ensures { IfOk result
        (λ e. e
        ≡ seal_of rules.now signers.now (plain_after snapshot.now) org.now payload.now) }
{
    seal_in(alloc, rules, signers, snapshot.map(), org, payload)
}

/// An organisation's endorsement of a payload in a state, as `seal` says of a snapshot's. The error
/// is of memory.
pub fn seal_in(
    alloc: Global,
    rules: &Rules,
    signers: &Signers,
    state: &StateMap,
    org: &OrgName,
    payload: &Payload,
) -> Result<Endorsement, AllocError>
    ensures { IfOk result
        (λ e. e
        ≡ seal_of rules.now signers.now (plain_in state.now.entries) org.now payload.now) }
{
    let standing = Standing::in_state(alloc, rules, state)?;
    let key = key_of(&standing, org);
    Ok(Endorsement {
        org: org.clone()?,
        tag: signers.tag(key, payload.bytes()),
    })
}

/// The key that an organisation has by who stands. None where it is no member.
fn key_of<'s>(standing: &'s Standing<'_>, org: &OrgName) -> Option<&'s OrgKey>
    ensures { option_map (λ k. k.now) result ≡ key_of standing.now.orgs org.now }
{
    match standing.organisation(org) {
        Some(organisation) => Some(&organisation.key),
        None => None,
    }
}
