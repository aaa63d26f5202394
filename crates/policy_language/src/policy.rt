//! Policies.

ghost use Rattle.std.specs.Prelude.{◌≡◌, ◌≤◌, ◌↔◌, IsSome, IfSome, length};
ghost use Rattle.policy_language.specs.View.{policies_of};

use fab_types::OrgName;
use std::marker::Model;

/// Which organisations' endorsements suffice.
#[cycle(policy)]
#[derive(Debug, Drop)]
pub enum Policy {
    /// That of this organisation.
    Org(OrgName),
    /// Those that satisfy all of these.
    And(Policies),
    /// Those that satisfy one of these.
    Or(Policies),
    /// Those that satisfy at least so many of these.
    OutOf(u32, Policies),
}

/// One policy or more, one after another.
#[cycle(policy)]
#[derive(Debug, Drop)]
pub struct Policies {
    items: Vec<Policy>,
}

impl Model for Policies {
    ghost use Rattle.std.specs.Prelude.{◌≤◌, length};
    ghost use Rattle.policy_language.specs.Tree.{Policies, policies_code, tree_size};

    ghost Value = { Policies };

    ghost coded = { policies_code };

    ghost use Rattle.policy_language.specs.View.{policies_of};

    ghost view = { λ p. policies_of p.items.items };

    ghost invariant = { λ p. 1 ≤ length p.items.items };

    ghost size = { tree_size };

    ghost use Rattle.policy_language.specs.Laws.Smaller.{most_le-size};
    ghost use Rattle.std.proofs.Common.{arith};

    ghost size_decreases = { λ p h. omega (arith, most_le-size p.items.items) };
}

impl Policies {
    /// These policies. None where there is none.
    pub fn new(items: Vec<Policy>) -> Option<Policies>
        ensures accepted { IsSome result ↔ (1 ≤ length items.items) }
        ensures value { IfSome result (λ p. p ≡ policies_of items.items) }
    {
        if items.is_empty() {
            return None;
        }
        Some(Policies { items })
    }

    /// The policies as a slice, which is not empty.
    pub fn items(&self) -> &[Policy]
        ensures value { policies_of result.now ≡ self.now }
        ensures some { 1 ≤ length result.now }
    {
        &self.items
    }
}
