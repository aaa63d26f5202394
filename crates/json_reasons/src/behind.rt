//! What no form of a field says: what stands twice or in no order, and modules and policies.

use crate::fault::ranged;
use crate::place::{Place, front, items_of, listed, text_of};
use crate::tables::MOST_ARGUMENT_BYTES;
use crate::walk::{Found, Wrong};
use crate::{MaybeWords, Words};
use fab_types::OrgName;
use ledger_table::meaning_of;
use policy_language::{PolicyFault, parse};
use serde_json::Value;
use std::alloc::{AllocError, Global};
use wasm_file::{ModuleRefusal, defined_functions};
use wasm_profile::Profile;
use wasm_reasons::module_reason;

/// The first member of an amendment whose name does not come behind the one before it.
pub(crate) fn out_of_order(value: &Value) -> Option<Place<'_>> {
    let mut last = None;
    for (index, member) in items_of(value, "members").iter().enumerate() {
        let name = text_of(member, "name");
        if last.is_some() && name <= last {
            return Some(Place::of_item("members", index, member));
        }
        last = name;
    }
    None
}

/// That the texts of an argument, with one space between, have too many bytes.
pub(crate) fn too_long(value: &Value) -> Option<Found<'_>> {
    let mut bytes = 0_usize;
    for item in items_of(value, "args") {
        if let Value::String(text) = item {
            bytes = bytes.saturating_add(text.len()).saturating_add(1);
        }
    }
    let count = bytes.saturating_sub(1) as u64;
    let fault = ranged("the count of its bytes", count, 0, MOST_ARGUMENT_BYTES)?;
    Some(Found {
        place: Place::of_field("args"),
        wrong: Wrong::Value(fault),
    })
}

/// The name or the public key that stands twice in a genesis file, or else the peer whose
/// organisation is not there, in words.
pub(crate) fn names_words(alloc: Global, file: &Value) -> MaybeWords {
    for (list, field) in [("orgs", "name"), ("orgs", "public"), ("chaincodes", "name")] {
        if let Some((place, first)) = first_twice(file, list, field) {
            return format!(in alloc; "{place}the same stands in {list}[{first}]").map(Some);
        }
    }
    let orgs = org_names(alloc, file)?;
    let Some((place, name)) = first_unknown(file, &orgs) else {
        return Ok(None);
    };
    let words = stranger_words(alloc, name, &orgs)?;
    format!(in alloc; "{place}{words}").map(Some)
}

/// That no organisation has a name.
fn stranger_words(alloc: Global, name: &str, orgs: &[&str]) -> Words {
    let there = listed(alloc, orgs)?;
    format!(in alloc; "no organisation has the name {name:?}; there are {there}")
}

/// The first item of a list whose text in this field an item before it has, and the first of these;
/// hex in letters of either case.
fn first_twice<'a>(
    file: &'a Value,
    list: &'static str,
    field: &'static str,
) -> Option<(Place<'a>, usize)> {
    let items = items_of(file, list);
    for (index, value) in items.iter().enumerate() {
        let first = items.iter().position(|other| are_same(
            text_of(value, field),
            text_of(other, field),
            field == "public",
        ));
        if let Some(first) = first
            && first < index
        {
            return Some((Place::of_item(list, index, value).field(field), first));
        }
    }
    None
}

/// Whether two texts are there and the same, in letters of either case if they are hex.
fn are_same(one: Option<&str>, other: Option<&str>, is_hex: bool) -> bool {
    match (one, other) {
        (Some(one), Some(other)) => one == other || is_hex && one.eq_ignore_ascii_case(other),
        _ => false,
    }
}

/// The first peer that is of none of these organisations, and the name of its own.
fn first_unknown<'a>(file: &'a Value, orgs: &[&str]) -> Option<(Place<'a>, &'a str)> {
    for (index, peer) in items_of(file, "peers").iter().enumerate() {
        if let Value::String(name) = peer
            && !(&*orgs).contains(&name.as_str())
        {
            return Some((Place::of_item("peers", index, peer), front(name.as_str())));
        }
    }
    None
}

/// The names of the organisations of a genesis file.
fn org_names(alloc: Global, file: &Value) -> Result<Vec<&str>, AllocError> {
    let mut names = Vec::new(alloc);
    for org in items_of(file, "orgs") {
        if let Some(name) = text_of(org, "name") {
            names.push(name)?;
        }
    }
    Ok(names)
}

/// The first policy of a genesis file that is refused, and why, in words: that for upgrades, and
/// then those of chaincodes.
pub(crate) fn policies_words(alloc: Global, file: &Value) -> MaybeWords {
    let orgs = org_names(alloc, file)?;
    let found = policy_words(
        alloc,
        Place::of_field("upgrade"),
        text_of(file, "upgrade"),
        &orgs,
    )?;
    if found.is_some() {
        return Ok(found);
    }
    for (index, value) in items_of(file, "chaincodes").iter().enumerate() {
        let place = Place::of_item("chaincodes", index, value).field("policy");
        let found = policy_words(alloc, place, text_of(value, "policy"), &orgs)?;
        if found.is_some() {
            return Ok(found);
        }
    }
    Ok(None)
}

/// Why a policy at a place, if one is there, is refused over these organisations, in words.
fn policy_words(alloc: Global, place: Place<'_>, text: Option<&str>, orgs: &[&str]) -> MaybeWords {
    let Some(text) = text else {
        return Ok(None);
    };
    let mut names = Vec::new(alloc);
    for org in orgs {
        if let Some(name) = OrgName::from_slice(org.as_bytes()) {
            names.push(name)?;
        }
    }
    match parse(alloc, text, &names).err() {
        Some(fault) => {
            let (words, number) = (fault_words(alloc, text, fault, orgs)?, fault.number());
            format!(in alloc; "{place}{words} ({number})").map(Some)
        }
        None => Ok(None),
    }
}

/// What a policy is.
const POLICY: &str = "'Org', or AND, OR or OutOf of policies, as OutOf(2, 'A', 'B', 'C')";

/// What is wrong in the text of a policy, where these organisations are known.
fn fault_words(alloc: Global, text: &str, fault: PolicyFault, orgs: &[&str]) -> Words {
    match fault {
        PolicyFault::Memory => Err(AllocError),
        PolicyFault::Syntax(offset) => {
            let letter = offset.saturating_add(1);
            format!(in alloc;
                "it goes wrong at letter {letter} of at most 1024; a policy is {POLICY}"
            )
        }
        PolicyFault::UnknownOrganisation => stranger_words(alloc, stranger_in(text, orgs), orgs),
        _ => {
            let meaning = meaning_of(fault.number());
            format!(in alloc; "{meaning}")
        }
    }
}

/// The first name in a policy's text that none of these organisations has.
fn stranger_in<'a>(text: &'a str, orgs: &[&str]) -> &'a str {
    for (place, name) in text.split('\'').enumerate() {
        if place % 2 == 1 && !(&*orgs).contains(&name) {
            return name;
        }
    }
    ""
}

/// The first module of a genesis file that is refused, or of a modules file, and why, in words.
pub(crate) fn modules_words(alloc: Global, file: &Value) -> MaybeWords {
    match file {
        Value::Array(items) => first_module(alloc, "", items),
        _ => match first_module(alloc, "chaincodes", items_of(file, "chaincodes"))? {
            None => first_module(alloc, "modules", items_of(file, "modules")),
            found => Ok(found),
        },
    }
}

/// The first item of a list whose module is refused, and why, in words.
fn first_module(alloc: Global, list: &'static str, items: &[Value]) -> MaybeWords {
    for (index, value) in items.iter().enumerate() {
        if let Some(reason) = module_words(alloc, value)? {
            let place = Place::of_item(list, index, value);
            return format!(in alloc; "{place}its module is refused: {reason}").map(Some);
        }
    }
    Ok(None)
}

/// Why the module that an object holds is refused, in words. None where it is not, or where none
/// can be read.
fn module_words(alloc: Global, object: &Value) -> MaybeWords {
    let (Some(profile), Some(text)) = (profile_of(object), text_of(object, "module")) else {
        return Ok(None);
    };
    let Ok(bytes) = hex::decode(alloc, text) else {
        return Ok(None);
    };
    match defined_functions(alloc, &bytes, profile) {
        Ok(_) => Ok(None),
        Err(ModuleRefusal::Memory) => Err(AllocError),
        Err(refusal) => module_reason(alloc, profile, &bytes, &refusal).map(Some),
    }
}

/// The profile that an object holds.
fn profile_of(object: &Value) -> Option<Profile> {
    let number = object.get("profile")?.as_u64()?;
    Profile::of_number(u8::try_from(number).ok()?)
}
