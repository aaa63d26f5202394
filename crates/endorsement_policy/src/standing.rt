//! Who the organisations are before a block.

ghost use Rattle.std.specs.Prelude.{◌≡◌, ◌||◌, Some, None, IfOk, not, option_and_then, option_map, if◌then◌else◌};
ghost use Rattle.std.specs.List.{find};
ghost use Rattle.endorsement_policy.specs.Endorsed.{is_org, org_names};
ghost use Rattle.endorsement_policy.specs.Judge.{plain_after, plain_in};
ghost use Rattle.endorsement_policy.specs.Membership.{is_usable, standing_by, standing_in};

use crate::members::members_in;
use crate::membership::{membership_policy, spelled_membership, value_of_membership};
use crate::organisations::{find_organisation, names_of};
use crate::rules::Rules;
use fab_types::{Membership, OrgName};
use org_keys::Organisation;
use policy_language::Policy;
use std::alloc::{AllocError, Global};
use std::marker::Model;
use world_state::{Snapshot, StateMap};

/// The organisations that the members of a membership are, and its policy.
#[derive(Drop)]
pub(crate) struct Amended {
    pub(crate) organisations: Vec<Organisation>,
    pub(crate) upgrade: Policy,
}

/// Who the organisations are before a block, and whose endorsements upgrades and amendments need:
/// those of the membership in the state, where one stands there that can be used, else those of the
/// genesis.
#[derive(Drop)]
pub struct Standing<'a> {
    rules: &'a Rules,
    amended: Option<Amended>,
}

impl<'a> Model for Standing<'a> {
    ghost use Rattle.policy_language.specs.Tree.{policies_code};
    ghost use Rattle.endorsement_policy.specs.Membership.{Standing, kept_as};
    ghost use Rattle.std.specs.Coded.{codes};

    ghost Value = { Standing };

    ghost coded = { Prim.hlevel (codes, policies_code) };

    ghost view = { λ s. kept_as s.rules.now s.amended };
}

impl<'a> Standing<'a> {
    /// Who stands in a state. The only error is want of memory.
    pub fn of(
        alloc: Global,
        rules: &'a Rules,
        snapshot: &Snapshot,
    ) -> Result<Standing<'a>, AllocError>
        ensures { IfOk result (λ s. s ≡ standing_in rules.now (plain_after snapshot.now)) }
    {
        Standing::in_state(alloc, rules, snapshot.map())
    }

    /// Who stands in a state, as `of` says of a snapshot. The only error is want of memory.
    pub fn in_state(
        alloc: Global,
        rules: &'a Rules,
        state: &StateMap,
    ) -> Result<Standing<'a>, AllocError>
        ensures { IfOk result (λ s. s ≡ standing_in rules.now (plain_in state.now.entries)) }
    {
        let spelled = spelled_membership(alloc, value_of_membership(state))?;
        let standing = Standing::by_membership(alloc, rules, spelled.as_ref(), true);
        drop(spelled);
        standing
    }

    /// Those of a membership, or of the genesis where there is none. The only error is want of
    /// memory.
    pub fn after(
        alloc: Global,
        rules: &'a Rules,
        membership: Option<&Membership>,
    ) -> Result<Standing<'a>, AllocError>
        ensures { IfOk result
            (λ s. s ≡ standing_by rules.now (option_map (λ m. m.now) membership.entry)) }
    {
        Standing::by_membership(alloc, rules, membership, false)
    }

    /// Those of the genesis.
    fn by_genesis(rules: &'a Rules) -> Standing<'a>
        ensures { result ≡ standing_by rules.now None }
    {
        Standing {
            rules,
            amended: None,
        }
    }

    /// Those of a membership, or of the genesis where there is none, or it is tested and cannot be
    /// used. Each key and the policy's text are read once. The only error is want of memory.
    fn by_membership(
        alloc: Global,
        rules: &'a Rules,
        membership: Option<&Membership>,
        is_tested: bool,
    ) -> Result<Standing<'a>, AllocError>
        ensures { IfOk result
            (λ s. s ≡ standing_by rules.now (option_and_then
            (λ m. if (not is_tested || is_usable rules.now.installed.orgs m) then Some m else None)
            (option_map (λ m. m.now) membership.entry))) }
    {
        let Some(membership) = membership else {
            return Ok(Standing::by_genesis(rules));
        };
        let members = membership.members.as_slice();
        let Some(upgrade) = membership_policy(alloc, membership)? else {
            return Ok(Standing::by_genesis(rules));
        };
        let Ok((organisations, are_usable)) = members_in(alloc, rules, members) else {
            drop(upgrade);
            return Err(AllocError);
        };
        if is_tested & !are_usable {
            drop(organisations);
            drop(upgrade);
            return Ok(Standing::by_genesis(rules));
        }
        let amended = Some(Amended {
            organisations,
            upgrade,
        });
        Ok(Standing { rules, amended })
    }

    /// The organisations.
    pub fn organisations(&self) -> &[Organisation]
        ensures { result.now ≡ self.now.orgs }
    {
        match &self.amended {
            Some(amended) => &amended.organisations,
            None => self.rules.organisations(),
        }
    }

    /// The organisation of this name.
    pub fn organisation(&self, name: &OrgName) -> Option<&Organisation>
        ensures { option_map (λ o. o.now) result ≡ find (is_org name.now) self.now.orgs }
    {
        find_organisation(self.organisations(), name)
    }

    /// The policy of upgrades and amendments.
    pub fn upgrade(&self) -> &Policy
        ensures { result.now ≡ self.now.upgrade }
    {
        match &self.amended {
            Some(amended) => &amended.upgrade,
            None => self.rules.upgrade(),
        }
    }

    /// The organisations' names. The only error is want of memory.
    pub(crate) fn names(&self, alloc: Global) -> Result<Vec<OrgName>, AllocError>
        ensures { IfOk result (λ v. v.items ≡ org_names self.now.orgs) }
    {
        names_of(alloc, self.organisations())
    }
}
