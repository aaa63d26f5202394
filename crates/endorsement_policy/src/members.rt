//! Which organisations members are.

ghost use Rattle.std.specs.Prelude.{◌≡◌, ◌&&◌, [], IfOk, map};
ghost use Rattle.std.specs.List.{list_all, list_any};
ghost use Rattle.org_keys.specs.Ledgers.{org_in};
ghost use Rattle.endorsement_policy.specs.Membership.{has_known_key, have_own_keys, is_same_key};
ghost use Rattle.endorsement_policy.specs.Membership.{members_in, org_by_key, orgs_by};
ghost use Rattle.fab_types.specs.declared.membership.MemberKey.TheVariants.{Kept, Public};

use crate::organisations::find_organisation;
use crate::rules::Rules;
use fab_types::{Member, MemberKey, OrgName};
use org_keys::{OrgKey, Organisation, PublicKey};
use std::alloc::{AllocError, Global};

/// The organisations that members are, with their keys as they are in the ledger, and whether each
/// member is one and no two have one public key. The only error is want of memory.
pub(crate) fn members_in(
    alloc: Global,
    rules: &Rules,
    members: &[Member],
) -> Result<(Vec<Organisation>, bool), AllocError>
    ensures organisations { IfOk result (λ o. o.0.items ≡ members_in rules.now members.now) }
    ensures usable { IfOk result (λ o. o.1
        ≡ (list_all (has_known_key rules.now.installed.orgs) members.now
        && have_own_keys (orgs_by rules.now.installed.orgs members.now))) }
{
    let genesis = rules.installed().organisations();
    let (found, are_known) = organisations_by(alloc, genesis, members)?;
    let are_own = have_own_keys(&found);
    let organisations = in_ledger(alloc, rules, found)?;
    Ok((organisations, are_known && are_own))
}

/// Organisations with their keys as they are in the ledger. The only error is want of memory.
fn in_ledger(
    alloc: Global,
    rules: &Rules,
    organisations: Vec<Organisation>,
) -> Result<Vec<Organisation>, AllocError>
    ensures { IfOk result (λ v. v.items
        ≡ map (org_in rules.now.edition rules.now.ledger) organisations.items) }
{
    let mut bound = Vec::with_capacity(alloc, organisations.len())?;
    'organisations: for organisation in organisations {
        bound.push(organisation.in_ledger(rules.edition(), rules.ledger()))?;
    }
    Ok(bound)
}

/// The organisations that members are, where the genesis has these, and whether each member is one.
/// The only error is want of memory.
pub(crate) fn organisations_by(
    alloc: Global,
    organisations: &[Organisation],
    members: &[Member],
) -> Result<(Vec<Organisation>, bool), AllocError>
    ensures organisations { IfOk result (λ o. o.0.items ≡ orgs_by organisations.now members.now) }
    ensures known { IfOk result
        (λ o. o.1 ≡ list_all (has_known_key organisations.now) members.now) }
{
    let mut found = Vec::with_capacity(alloc, members.len())?;
    let mut are_known = true;
    for member in members {
        let organisation = organisation_of(organisations, member)?;
        let is_known = organisation.is_some();
        are_known &= is_known;
        if let Some(organisation) = organisation {
            found.push(organisation)?;
        }
    }
    Ok((found, are_known))
}

/// The organisation that a member is. The only error is want of memory.
fn organisation_of(
    organisations: &[Organisation],
    member: &Member,
) -> Result<Option<Organisation>, AllocError>
    ensures { IfOk result
        (λ o. o ≡ org_by_key organisations.now member.now.name member.now.key) }
{
    match member.key {
        MemberKey::Kept => kept_organisation(organisations, &member.name),
        MemberKey::Public(bytes) => own_organisation(&member.name, bytes),
    }
}

/// The one of these that has this name, with its key.
fn kept_organisation(
    organisations: &[Organisation],
    name: &OrgName,
) -> Result<Option<Organisation>, AllocError>
    ensures { IfOk result (λ o. o ≡ org_by_key organisations.now name.now Kept) }
{
    match find_organisation(organisations, name) {
        Some(organisation) => Ok(Some(organisation.clone()?)),
        None => Ok(None),
    }
}

/// The one of this name and this public key. None where the bytes are no key to take in.
fn own_organisation(name: &OrgName, bytes: [u8; 32]) -> Result<Option<Organisation>, AllocError>
    ensures { IfOk result (λ o. o ≡ org_by_key [] name.now (Public bytes)) }
{
    let Some(key) = PublicKey::new(bytes) else {
        return Ok(None);
    };
    Ok(Some(Organisation {
        name: name.clone()?,
        key: OrgKey::Public(key),
    }))
}

/// Whether no two organisations have one public key.
pub(crate) fn have_own_keys(organisations: &[Organisation]) -> bool
    ensures { result ≡ have_own_keys organisations.now }
{
    match organisations {
        [] => true,
        [first, rest @ ..] => !shares_key(first, rest) && have_own_keys(rest),
    }
}

/// Whether one of the others has this organisation's public key.
fn shares_key(organisation: &Organisation, others: &[Organisation]) -> bool
    ensures { result
        ≡ list_any (λ other. is_same_key organisation.now.key other.key) others.now }
{
    others
        .iter()
        .any(|other| is_same_key(&organisation.key, &other.key))
}

/// Whether both are a public key, the same, bound or not.
fn is_same_key(one: &OrgKey, other: &OrgKey) -> bool
    ensures { result ≡ is_same_key one.now other.now }
{
    match (one.public(), other.public()) {
        (Some(one), Some(other)) => one.as_bytes() == other.as_bytes(),
        _ => false,
    }
}
