//! Sets of organisations.

ghost use Rattle.std.specs.Prelude.{◌≡◌, ◌≤◌, ◌↔◌, IsSome, IfSome, length};
ghost use Rattle.policy_language.specs.GoodSets.{is_among};

use fab_types::OrgName;
use std::marker::Model;

/// The organisations that endorsed: up to 32 names. Neither order nor repetition means anything.
#[derive(Debug, Drop)]
pub struct OrgSet {
    names: Vec<OrgName>,
}

impl Model for OrgSet {
    ghost use Rattle.std.specs.Prelude.{List, ℕ, ◌≤◌, length};

    ghost Value = { List (List ℕ) };

    ghost view = { λ s. s.names.items };

    ghost invariant = { λ s. length s.names.items ≤ 32 };
}

impl OrgSet {
    /// The set of these names. None if there are more than 32.
    pub fn new(names: Vec<OrgName>) -> Option<OrgSet>
        ensures accepted { IsSome result ↔ (length names.items ≤ 32) }
        ensures value { IfSome result (λ s. s ≡ names.items) }
    {
        if names.len() > 32 {
            return None;
        }
        Some(OrgSet { names })
    }

    /// The names, as they were given.
    pub fn names(&self) -> &[OrgName]
        ensures { result.now ≡ self.now }
    {
        &self.names
    }

    /// Whether an organisation is in the set.
    pub fn contains(&self, name: &OrgName) -> bool
        ensures { result ≡ is_among self.now name.now }
    {
        is_among(&self.names, name)
    }
}

/// Whether a name is one of the names.
pub fn is_among(names: &[OrgName], name: &OrgName) -> bool
    ensures { result ≡ is_among names.now name.now }
{
    names.iter().any(|n| n.as_slice() == name.as_slice())
}
