//! Organisations by their names, and their tags.

ghost use Rattle.std.specs.Prelude.{◌≡◌, IfOk, option_map};
ghost use Rattle.std.specs.List.{find};
ghost use Rattle.endorsement_policy.specs.Endorsed.{is_org, is_tag_of, org_names};

use fab_types::{Endorsement, OrgName};
use org_keys::Organisation;
use std::alloc::{AllocError, Global};

/// The first of these organisations that has this name.
pub(crate) fn find_organisation<'o>(
    organisations: &'o [Organisation],
    name: &OrgName,
) -> Option<&'o Organisation>
    ensures { option_map (λ o. o.now) result ≡ find (is_org name.now) organisations.now }
{
    organisations.iter().find(|o| is_named(o, name))
}

/// The names of organisations. The only error is want of memory.
pub(crate) fn names_of(
    alloc: Global,
    organisations: &[Organisation],
) -> Result<Vec<OrgName>, AllocError>
    ensures { IfOk result (λ v. v.items ≡ org_names organisations.now) }
{
    let mut names = Vec::with_capacity(alloc, organisations.len())?;
    for organisation in organisations {
        names.push(organisation.name.clone()?)?;
    }
    Ok(names)
}

fn is_named(organisation: &Organisation, name: &OrgName) -> bool
    ensures { result ≡ is_org name.now organisation.now }
{
    organisation.name.as_slice() == name.as_slice()
}

/// Whether the organisation that an endorsement names is one of these, and the tag is its tag on
/// these bytes.
pub fn is_tag(organisations: &[Organisation], endorsement: &Endorsement, bytes: &[u8]) -> bool
    ensures { result
        ≡ is_tag_of (find (is_org endorsement.now.org) organisations.now) bytes.now
        endorsement.now.tag }
{
    match find_organisation(organisations, &endorsement.org) {
        Some(organisation) => organisation.key.is_right(bytes, &endorsement.tag),
        None => false,
    }
}
