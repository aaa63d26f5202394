//! Which memberships can be used, and which may come next.

ghost use Rattle.std.specs.Prelude.{◌≡◌, ◌&&◌, IfOk, option_and_then, option_map};
ghost use Rattle.std.specs.FinMap.{get};
ghost use Rattle.std.specs.List.{list_all};
ghost use Rattle.grammar.specs.Reading.{whole_at};
ghost use Rattle.fab_types.specs.Memberships.{membership_key};
ghost use Rattle.wire.specs.Reading.{membership_at};
ghost use Rattle.endorsement_policy.specs.Judge.{plain_after, plain_in};
ghost use Rattle.endorsement_policy.specs.Membership.{has_known_key, have_own_keys, is_next, is_usable, member_names, membership_policy, orgs_by, serial_of, usable_membership};

use crate::members::{have_own_keys, organisations_by};
use fab_types::{Key, Member, Membership, OrgName, Value};
use org_keys::Organisation;
use policy_language::{Policy, policy_in_text};
use std::alloc::{AllocError, Global};
use wire::{WireFault, decode_membership};
use world_state::{Snapshot, StateMap};

/// The value at the key of the membership.
pub fn membership_value(snapshot: &Snapshot) -> Option<&Value>
    ensures { option_map (λ v. v.now) result ≡ get (plain_after snapshot.now) membership_key }
{
    value_of_membership(snapshot.map())
}

/// The value at the key of the membership, in a state.
pub fn value_of_membership(state: &StateMap) -> Option<&Value>
    ensures { option_map (λ v. v.now) result ≡ get (plain_in state.now.entries) membership_key }
{
    let key = Key::of_membership();
    match state.get(&key) {
        Some(entry) => Some(&entry.0),
        None => None,
    }
}

/// The membership that a value spells, if it can be used where the genesis has these organisations.
/// None where it cannot, or spells none. The only error is want of memory.
pub fn usable_membership(
    alloc: Global,
    organisations: &[Organisation],
    value: Option<&Value>,
) -> Result<Option<Membership>, AllocError>
    ensures { IfOk result (λ s. s
        ≡ usable_membership organisations.now (option_map (λ v. v.now) value.entry)) }
{
    let Some(membership) = spelled_membership(alloc, value)? else {
        return Ok(None);
    };
    if !is_usable(alloc, organisations, &membership)? {
        return Ok(None);
    }
    Ok(Some(membership))
}

/// The membership that a value spells. None where it spells none. The only error is want of memory.
pub(crate) fn spelled_membership(
    alloc: Global,
    value: Option<&Value>,
) -> Result<Option<Membership>, AllocError>
    ensures { IfOk result
        (λ s. s ≡ option_and_then (whole_at membership_at) (option_map (λ v. v.now) value.entry)) }
{
    let Some(value) = value else {
        return Ok(None);
    };
    match decode_membership(alloc, value.as_slice()) {
        Ok(membership) => Ok(Some(membership)),
        Err(WireFault::Memory) => Err(AllocError),
        Err(_) => Ok(None),
    }
}

/// Whether a membership may come next where the key of the membership has this value: its serial
/// number is one more than that of what stands, which is 0 by the genesis, and it can be used. The
/// genesis has these organisations. The only error is want of memory.
pub fn is_next(
    alloc: Global,
    organisations: &[Organisation],
    value: Option<&Value>,
    membership: &Membership,
) -> Result<bool, AllocError>
    ensures { IfOk result (λ b. b
        ≡ is_next organisations.now (option_map (λ v. v.now) value.entry) membership.now) }
{
    let serial = standing_serial(alloc, organisations, value)?;
    let follows = u64::from(membership.serial) == u64::from(serial) + 1;
    Ok(follows && is_usable(alloc, organisations, membership)?)
}

/// The serial number of what stands: 0 by the genesis.
fn standing_serial(
    alloc: Global,
    organisations: &[Organisation],
    value: Option<&Value>,
) -> Result<u32, AllocError>
    ensures { IfOk result (λ n. n
        ≡ serial_of (usable_membership organisations.now (option_map (λ v. v.now) value.entry))) }
{
    match usable_membership(alloc, organisations, value)? {
        Some(membership) => Ok(membership.serial),
        None => Ok(0),
    }
}

/// Whether a membership can be used: each member that keeps its key is one of these organisations,
/// each other has a public key that is to be taken in, no two have one public key, be it kept, and
/// the text is a policy of the members. The only error is want of memory.
pub fn is_usable(
    alloc: Global,
    organisations: &[Organisation],
    membership: &Membership,
) -> Result<bool, AllocError>
    ensures { IfOk result (λ b. b ≡ is_usable organisations.now membership.now) }
{
    if !can_stand(alloc, organisations, membership.members.as_slice())? {
        return Ok(false);
    }
    let policy = membership_policy(alloc, membership)?;
    let is_policy = policy.is_some();
    drop(policy);
    Ok(is_policy)
}

/// Whether each member has a key, and no two the same public one.
fn can_stand(
    alloc: Global,
    organisations: &[Organisation],
    members: &[Member],
) -> Result<bool, AllocError>
    ensures { IfOk result (λ b. b
        ≡ (list_all (has_known_key organisations.now) members.now
        && have_own_keys (orgs_by organisations.now members.now))) }
{
    let (found, are_known) = organisations_by(alloc, organisations, members)?;
    let are_own = have_own_keys(&found);
    drop(found);
    Ok(are_known && are_own)
}

/// The policy of its members that the text of a membership is. The only error is want of memory.
pub(crate) fn membership_policy(
    alloc: Global,
    membership: &Membership,
) -> Result<Option<Policy>, AllocError>
    ensures { IfOk result (λ p. p ≡ membership_policy membership.now) }
{
    let names = member_names(alloc, membership.members.as_slice())?;
    policy_in_text(alloc, membership.policy.as_slice(), &names)
}

/// The names of members.
fn member_names(alloc: Global, members: &[Member]) -> Result<Vec<OrgName>, AllocError>
    ensures { IfOk result (λ v. v.items ≡ member_names members.now) }
{
    let mut names = Vec::with_capacity(alloc, members.len())?;
    for member in members {
        names.push(member.name.clone()?)?;
    }
    Ok(names)
}
