//! The organisations that a question names.

ghost use Rattle.std.specs.Prelude.{◌≡◌, ◌≤◌, ◌↔◌, IfOk, IfSome, IsSome, length};
ghost use Rattle.json_questions.specs.Answers.{names_among};

use endorsement_policy::Standing;
use fab_types::OrgName;
use policy_language::OrgSet;
use std::alloc::{AllocError, Global};
use std::marker::Model;

/// The organisations that a question names: up to 32, whether they stand or not.
#[derive(Drop)]
pub struct AskedOrgs {
    names: Vec<OrgName>,
}

impl Model for AskedOrgs {
    ghost use Rattle.std.specs.Prelude.{List, ℕ, ◌≤◌, length};

    ghost Value = { List (List ℕ) };

    ghost view = { λ a. a.names.items };

    ghost invariant = { λ a. length a.names.items ≤ 32 };
}

impl AskedOrgs {
    /// Those of these names. None if there are more than 32.
    pub fn new(names: Vec<OrgName>) -> Option<AskedOrgs>
        ensures accepted { IsSome result ↔ (length names.items ≤ 32) }
        ensures value { IfSome result (λ a. a ≡ names.items) }
    {
        if names.len() > 32 {
            return None;
        }
        Some(AskedOrgs { names })
    }

    /// Those who stand. The only error is want of memory.
    pub fn who_stand(&self, alloc: Global, standing: &Standing<'_>) -> Result<OrgSet, AllocError>
        ensures { IfOk result (λ s. s ≡ names_among standing.now.orgs self.now) }
    {
        let found = found_standing(alloc, standing, &self.names)?;
        Ok(OrgSet::new(found).unwrap())
    }
}

/// Those of these names that organisations have who stand.
fn found_standing(
    alloc: Global,
    standing: &Standing<'_>,
    names: &[OrgName],
) -> Result<Vec<OrgName>, AllocError>
    ensures { IfOk result (λ v. v.items ≡ names_among standing.now.orgs names.now) }
{
    let mut found = Vec::new(alloc);
    for name in names {
        if standing.organisation(name).is_some() {
            found.push(name.clone()?)?;
        }
    }
    Ok(found)
}
