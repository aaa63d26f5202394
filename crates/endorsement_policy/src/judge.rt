//! The judge of a block's envelopes.

ghost use Rattle.std.specs.Prelude.{◌≡◌, ◌&&◌, IfOk, IfSome, option_map};
ghost use Rattle.std.specs.Result.{is_ok};
ghost use Rattle.std.specs.FinMap.{get};
ghost use Rattle.fab_types.specs.Memberships.{membership_key};
ghost use Rattle.endorsement_policy.specs.Endorsed.{is_amend_endorsed, is_call_endorsed, is_met_by, is_upgrade_endorsed, org_names, reads_no_newer, right_orgs, writes_own};
ghost use Rattle.endorsement_policy.specs.Installed.{names_known, usable_by};
ghost use Rattle.endorsement_policy.specs.Judge.{judge_in, judged_policy, judges, plain_in, policy_from};
ghost use Rattle.endorsement_policy.specs.Membership.{is_next};
ghost use Rattle.policy_language.specs.GoodSets.{is_satisfied};
ghost use Rattle.world_state.specs.Writing.{as_state};

use crate::evaluate::satisfied;
use crate::membership::{is_next, value_of_membership};
use crate::payloads::{
    is_amend_payload, is_upgrade_payload, names_no_other, reads_no_newer, reads_own, writes_own,
};
use crate::rules::Rules;
use crate::source::{Known, Source};
use crate::standing::Standing;
use crate::tags::right_orgs;
use fab_types::{Amend, Call, Definition, Envelope, Membership, Name, Payload, Proposal, Upgrade};
use policy_language::{OrgSet, Policy};
use std::alloc::{AllocError, Global};
use std::marker::Model;
use world_state::StateMap;

/// The rules, the state before a block, who stands there, and the policies of the chaincodes that
/// the block calls.
#[derive(Drop)]
pub(crate) struct Judge<'a> {
    rules: &'a Rules,
    standing: Standing<'a>,
    state: &'a StateMap,
    known: Vec<Known<'a>>,
}

impl<'a> Model for Judge<'a> {
    ghost use Rattle.policy_language.specs.Tree.{policies_code};
    ghost use Rattle.endorsement_policy.specs.Judge.{AreRight, Judge};
    ghost use Rattle.endorsement_policy.specs.Membership.{with_standing};
    ghost use Rattle.std.specs.Coded.{codes};

    ghost Value = { Judge };

    ghost coded = { Prim.hlevel (codes, policies_code) };

    ghost view = { λ j. record {
      listed = with_standing j.rules.now j.standing;
      entries = j.state.now.entries;
    } };

    ghost invariant = { λ j. AreRight (record {
      listed = with_standing j.rules.now j.standing;
      entries = j.state.now.entries;
    }) j.known.items };
}

impl<'a> Judge<'a> {
    /// A judge who has looked up who stands, and the policy of each chaincode that these envelopes
    /// call, once. The only error is want of memory.
    pub(crate) fn new(
        alloc: Global,
        rules: &'a Rules,
        state: &'a StateMap,
        envelopes: &'a [Envelope],
    ) -> Result<Judge<'a>, AllocError>
        ensures { IfOk result (λ j. j ≡ judge_in rules.now state.now.entries) }
    {
        let standing = Standing::in_state(alloc, rules, state)?;
        let known = Vec::new(alloc);
        let mut judge = Judge {
            rules,
            standing,
            state,
            known,
        };
        match judge.meet_each(alloc, envelopes) {
            Ok(()) => Ok(judge),
            Err(error) => {
                drop(judge);
                Err(error)
            }
        }
    }

    /// Looks up the policy of each chaincode that these envelopes call.
    fn meet_each(&mut self, alloc: Global, envelopes: &'a [Envelope]) -> Result<(), AllocError>
        ensures { self.new ≡ self.old }
    {
        for envelope in envelopes {
            self.meet(alloc, envelope.payload.proposal())?;
        }
        Ok(())
    }

    /// Looks up the policy of a chaincode that is called, if that is not yet done.
    fn meet(&mut self, alloc: Global, proposal: &'a Proposal) -> Result<(), AllocError>
        ensures { self.new ≡ self.old }
    {
        let Proposal::Call(call) = proposal else {
            return Ok(());
        };
        if self.known(&call.chaincode).is_some() {
            return Ok(());
        }
        let source = Source::of(alloc, self.rules, self.state, &call.chaincode)?;
        self.known.push(Known {
            chaincode: &call.chaincode,
            source,
        })?;
        Ok(())
    }

    /// The policy of a chaincode, where it was looked up.
    fn known(&self, chaincode: &Name) -> Option<&Source<'a>>
        ensures { IfSome result
            (λ s. policy_from s.now ≡ judged_policy self.now chaincode.now) }
    {
        for known in &self.known {
            if known.is_of(chaincode) {
                return Some(&known.source);
            }
        }
        None
    }

    /// Whether an envelope is endorsed. It may be known which organisations' tags on it are right.
    /// The only error is want of memory.
    pub(crate) fn is_endorsed(
        &self,
        alloc: Global,
        envelope: &Envelope,
        right: Option<&OrgSet>,
    ) -> Result<bool, AllocError>
        requires { IfSome right
            (λ orgs. orgs.now ≡ right_orgs self.now.listed.orgs envelope.now) }
        ensures { IfOk result (λ b. b ≡ judges self.now envelope.now) }
    {
        match envelope.payload.proposal() {
            Proposal::Call(call) => self.is_call_endorsed(alloc, call, envelope, right),
            Proposal::Upgrade(upgrade) => self.is_upgrade_endorsed(alloc, upgrade, envelope, right),
            Proposal::Amend(amend) => self.is_amend_endorsed(alloc, amend, envelope, right),
        }
    }

    /// Whether an envelope with a call is endorsed.
    fn is_call_endorsed(
        &self,
        alloc: Global,
        call: &Call,
        envelope: &Envelope,
        right: Option<&OrgSet>,
    ) -> Result<bool, AllocError>
        requires { IfSome right
            (λ orgs. orgs.now ≡ right_orgs self.now.listed.orgs envelope.now) }
        ensures { IfOk result (λ b. b
            ≡ is_call_endorsed self.now.listed (plain_in self.now.entries) call.now
            envelope.now) }
    {
        if !reads_own(&envelope.payload) || !names_no_other(&envelope.payload) {
            return Ok(false);
        }
        if !self.writes_own(call, &envelope.payload) {
            return Ok(false);
        }
        match self.known(&call.chaincode) {
            Some(source) => is_met_by(alloc, &self.standing, source.policy(), envelope, right),
            None => self.is_met_in_state(alloc, &call.chaincode, envelope, right),
        }
    }

    /// Whether a call writes in the namespace of its chaincode alone.
    fn writes_own(&self, call: &Call, payload: &Payload) -> bool
        ensures { result ≡ writes_own self.now.listed.edition call.now.chaincode payload.now }
    {
        writes_own(self.rules.edition(), &call.chaincode, payload)
    }

    /// Whether the organisations of which the envelope carries a right tag satisfy the policy that
    /// a chaincode has in the state.
    fn is_met_in_state(
        &self,
        alloc: Global,
        chaincode: &Name,
        envelope: &Envelope,
        right: Option<&OrgSet>,
    ) -> Result<bool, AllocError>
        requires { IfSome right
            (λ orgs. orgs.now ≡ right_orgs self.now.listed.orgs envelope.now) }
        ensures { IfOk result (λ b. b
            ≡ is_met_by (right_orgs self.now.listed.orgs envelope.now)
            (judged_policy self.now chaincode.now)) }
    {
        let source = Source::of(alloc, self.rules, self.state, chaincode)?;
        is_met_by(alloc, &self.standing, source.policy(), envelope, right)
    }

    /// Whether an envelope with an upgrade is endorsed.
    fn is_upgrade_endorsed(
        &self,
        alloc: Global,
        upgrade: &Upgrade,
        envelope: &Envelope,
        right: Option<&OrgSet>,
    ) -> Result<bool, AllocError>
        requires { IfSome right
            (λ orgs. orgs.now ≡ right_orgs self.now.listed.orgs envelope.now) }
        ensures { IfOk result (λ b. b
            ≡ is_upgrade_endorsed self.now.listed (as_state self.now.entries) upgrade.now
            envelope.now) }
    {
        if !is_upgrade_payload(alloc, upgrade, &envelope.payload)? {
            return Ok(false);
        }
        if !self.reads_no_newer(&envelope.payload) {
            return Ok(false);
        }
        if !self.may_be_put(alloc, &upgrade.definition)? {
            return Ok(false);
        }
        self.is_agreed(alloc, envelope, right)
    }

    /// Whether an upgrade may put a definition.
    fn may_be_put(&self, alloc: Global, definition: &Definition) -> Result<bool, AllocError>
        ensures { IfOk result (λ b. b
            ≡ (is_ok (usable_by self.now.listed.installed definition.now)
            && names_known (org_names self.now.listed.orgs) definition.now)) }
    {
        let names = self.standing.names(alloc)?;
        let installed = self.rules.installed();
        installed.may_be_put(alloc, &names, definition)
    }

    /// Whether an envelope with an amendment is endorsed.
    fn is_amend_endorsed(
        &self,
        alloc: Global,
        amend: &Amend,
        envelope: &Envelope,
        right: Option<&OrgSet>,
    ) -> Result<bool, AllocError>
        requires { IfSome right
            (λ orgs. orgs.now ≡ right_orgs self.now.listed.orgs envelope.now) }
        ensures { IfOk result (λ b. b
            ≡ is_amend_endorsed self.now.listed (as_state self.now.entries) amend.now
            envelope.now) }
    {
        if !is_amend_payload(alloc, amend, &envelope.payload)? {
            return Ok(false);
        }
        if !self.reads_no_newer(&envelope.payload) {
            return Ok(false);
        }
        if !self.is_next(alloc, &amend.membership)? {
            return Ok(false);
        }
        self.is_agreed(alloc, envelope, right)
    }

    /// Whether the organisations of which the envelope carries a right tag satisfy the policy that
    /// upgrades and amendments need.
    fn is_agreed(
        &self,
        alloc: Global,
        envelope: &Envelope,
        right: Option<&OrgSet>,
    ) -> Result<bool, AllocError>
        requires { IfSome right
            (λ orgs. orgs.now ≡ right_orgs self.now.listed.orgs envelope.now) }
        ensures { IfOk result (λ b. b
            ≡ is_satisfied self.now.listed.upgrade
            (right_orgs self.now.listed.orgs envelope.now)) }
    {
        let policy = Some(self.standing.upgrade());
        is_met_by(alloc, &self.standing, policy, envelope, right)
    }

    /// Whether each key that is read is no newer than in the state.
    fn reads_no_newer(&self, payload: &Payload) -> bool
        ensures { result ≡ reads_no_newer (as_state self.now.entries) payload.now }
    {
        reads_no_newer(self.state, payload)
    }

    /// Whether a membership may come next in the state.
    fn is_next(&self, alloc: Global, membership: &Membership) -> Result<bool, AllocError>
        ensures { IfOk result (λ b. b
            ≡ is_next self.now.listed.installed.orgs
            (get (plain_in self.now.entries) membership_key) membership.now) }
    {
        let organisations = self.rules.installed().organisations();
        let value = value_of_membership(self.state);
        is_next(alloc, organisations, value, membership)
    }
}

/// Whether the organisations of which the envelope carries a right tag satisfy the policy. No tag
/// is computed where there is none, or where it is known whose tags are right.
fn is_met_by(
    alloc: Global,
    standing: &Standing<'_>,
    policy: Option<&Policy>,
    envelope: &Envelope,
    right: Option<&OrgSet>,
) -> Result<bool, AllocError>
    requires { IfSome right (λ orgs. orgs.now ≡ right_orgs standing.now.orgs envelope.now) }
    ensures { IfOk result (λ b. b
        ≡ is_met_by (right_orgs standing.now.orgs envelope.now)
        (option_map (λ p. p.now) policy.entry)) }
{
    let Some(policy) = policy else {
        return Ok(false);
    };
    if let Some(orgs) = right {
        return Ok(satisfied(policy, orgs));
    }
    let orgs = right_orgs(alloc, standing.organisations(), envelope)?;
    Ok(satisfied(policy, &orgs))
}
