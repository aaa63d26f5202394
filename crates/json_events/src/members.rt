//! What an amendment's fields hold.

ghost use Rattle.std.specs.Prelude.{ℕ, List, IfOk, IfErr, MatchOption};
ghost use Rattle.json_fields.specs.Lists.{AreItems};
ghost use Rattle.serde_json.specs.View.{items_view, view};
ghost use Rattle.fab_types.specs.declared.membership.MemberKey.{MemberKey};
ghost use Rattle.json_events.specs.Refused.{NoneIs};
ghost use Rattle.json_events.specs.Spelling.{AreMembers, IsAmend, IsMember, IsMembership, IsNamedKey};

use crate::action::BadLine;
use crate::fields::{AmendFields, kept_name};
use crate::values::policy_text;
use fab_types::{Amend, Member, MemberKey, Members, Membership, OrgName};
use hex::FromHex;
use json_fields::public_fields;
use serde_json::Value;
use std::alloc::Global;

/// The amendment that these fields hold.
pub(crate) fn amend(alloc: Global, fields: &AmendFields<'_>) -> Result<Amend, BadLine>
    ensures ok { IfOk result
        (λ a. IsAmend (items_view fields.now.members.now) fields.now.nonce.now fields.now.policy.now
        fields.now.serial a) }
    ensures refused { IfErr result
        (λ r. NoneIs
        (IsAmend (items_view fields.now.members.now) fields.now.nonce.now fields.now.policy.now
        fields.now.serial) r) }
{
    let Ok(nonce) = <[u8; 16]>::from_hex(fields.nonce) else {
        return Err(BadLine::NoForm);
    };
    let membership = membership(alloc, fields)?;
    Ok(Amend { membership, nonce })
}

/// The membership that the fields of an amendment hold.
fn membership(alloc: Global, fields: &AmendFields<'_>) -> Result<Membership, BadLine>
    ensures ok { IfOk result
        (λ s. IsMembership (items_view fields.now.members.now) fields.now.policy.now
        fields.now.serial s) }
    ensures refused { IfErr result
        (λ r. NoneIs
        (IsMembership (items_view fields.now.members.now) fields.now.policy.now
        fields.now.serial) r) }
{
    let Ok(serial) = u32::try_from(fields.serial) else {
        return Err(BadLine::NoForm);
    };
    let members = members(alloc, fields.members)?;
    let policy = policy_text(alloc, fields.policy)?;
    Ok(Membership {
        serial,
        members,
        policy,
    })
}

/// The members that the items of a list are: 1 to 16, whose names ascend.
fn members(alloc: Global, values: &[Value]) -> Result<Members, BadLine>
    ensures ok { IfOk result (λ ms. AreMembers (items_view values.now) ms) }
    ensures refused { IfErr result (λ r. NoneIs (AreMembers (items_view values.now)) r) }
{
    let found = each_member(alloc, values)?;
    match Members::new(found) {
        Some(members) => Ok(members),
        None => Err(BadLine::NoForm),
    }
}

/// The member that each item is, in order.
fn each_member(alloc: Global, values: &[Value]) -> Result<Vec<Member>, BadLine>
    ensures ok { IfOk result (λ v. AreItems IsMember (items_view values.now) v.items) }
    ensures refused { IfErr result (λ r. NoneIs (AreItems IsMember (items_view values.now)) r) }
{
    let mut found = Vec::new(alloc);
    'items: for value in values {
        found.push(member(value)?)?;
    }
    Ok(found)
}

/// The member that an object is.
fn member(value: &Value) -> Result<Member, BadLine>
    ensures ok { IfOk result (λ m. IsMember (view value.now) m) }
    ensures refused { IfErr result (λ r. NoneIs (IsMember (view value.now)) r) }
{
    let Some((name, key)) = named_key(value) else {
        return Err(BadLine::NoForm);
    };
    match OrgName::from_slice(name.as_bytes()) {
        Some(name) => Ok(Member { name, key }),
        None => Err(BadLine::NoForm),
    }
}

/// The name and the key of a member: the name alone stands where it keeps its key.
fn named_key(value: &Value) -> Option<(&str, MemberKey)>
    ensures { MatchOption result
        ((name : List ℕ) (key : MemberKey) → ¬ IsNamedKey (view value.now) name key)
        (λ p. IsNamedKey (view value.now) p.0.now p.1) }
{
    if let Some(name) = kept_name(value) {
        return Some((name, MemberKey::Kept));
    }
    let fields = public_fields(value)?;
    let Ok(key) = <[u8; 32]>::from_hex(fields.public) else {
        return None;
    };
    Some((fields.name, MemberKey::Public(key)))
}
