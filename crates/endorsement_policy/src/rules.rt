//! What the members of a ledger agree on.

ghost use Rattle.std.specs.Prelude.{◌≡◌, ◌↔◌, true, IsSome, IfSome, length, option_map};
ghost use Rattle.std.specs.List.{find};
ghost use Rattle.org_keys.specs.Ledgers.{are_keys_of};
ghost use Rattle.endorsement_policy.specs.Listed.{do_need_someone, is_org, is_policy_of};
ghost use Rattle.policy_language.specs.GoodSets.{needs_someone};

use crate::evaluate::is_satisfied_by;
use crate::installed::Installed;
use crate::organisations::find_organisation;
use fab_types::{Edition, Name, OrgName};
use org_keys::Organisation;
use policy_language::Policy;
use std::marker::Model;

/// A chaincode and the policy of its calls.
#[derive(Drop)]
pub struct ChaincodePolicy {
    pub chaincode: Name,
    pub policy: Policy,
}

/// The edition of the ledger's rules, the SHA-256 of its genesis file, the organisations with their
/// keys, the policy of each chaincode by the genesis, the policy of upgrades and amendments, and
/// what every peer has installed, with the organisations among it. Of several of one name the first
/// counts. Each policy needs at least one endorsement, and each key is one of this ledger.
#[derive(Drop)]
pub struct Rules {
    edition: Edition,
    ledger: [u8; 32],
    policies: Vec<ChaincodePolicy>,
    upgrade: Policy,
    installed: Installed,
}

impl Model for Rules {
    ghost use Rattle.std.specs.Prelude.{◌≡◌, true, length};
    ghost use Rattle.org_keys.specs.Ledgers.{are_keys_of};
    ghost use Rattle.endorsement_policy.specs.Listed.{Listed, do_need_someone};
    ghost use Rattle.policy_language.specs.GoodSets.{needs_someone};
    ghost use Rattle.policy_language.specs.Tree.{policies_code};
    ghost use Rattle.std.specs.Coded.{codes};

    ghost Value = { Listed };

    ghost coded = { Prim.hlevel (codes, policies_code) };

    ghost view = { λ r. record {
      edition = r.edition;
      ledger = r.ledger;
      orgs = r.installed.orgs;
      policies = r.policies.items;
      upgrade = r.upgrade;
      installed = r.installed;
    } };

    ghost invariant = { λ r. (do_need_someone r.policies.items ≡ true) ×
        (needs_someone r.upgrade ≡ true) ×
        (are_keys_of r.edition r.ledger r.installed.orgs ≡ true) ×
        (length r.ledger ≡ 32) };
}

/// Whether the policy needs at least one endorsement.
fn needs_someone(policy: &Policy) -> bool
    ensures { result ≡ needs_someone policy.now }
{
    !is_satisfied_by(policy, &[])
}

/// Whether each of these needs at least one endorsement.
fn do_need_someone(policies: &[ChaincodePolicy]) -> bool
    ensures { result ≡ do_need_someone policies.now }
{
    policies.iter().all(|p| needs_someone(&p.policy))
}

/// Whether each of these has a key that may be one of such a ledger.
fn are_keys_of(edition: Edition, ledger: &[u8; 32], organisations: &[Organisation]) -> bool
    ensures { result ≡ are_keys_of edition ledger.now organisations.now }
{
    organisations.iter().all(|o| o.key.is_of(edition, ledger))
}

impl Rules {
    /// The rules of this edition, of the ledger whose genesis file has this SHA-256, and of these
    /// policies and organisations. None where some policy is satisfied without any endorsement, as
    /// one with the threshold 0 is, or some key is none of this ledger.
    pub fn new(
        ledger: [u8; 32],
        edition: Edition,
        policies: Vec<ChaincodePolicy>,
        upgrade: Policy,
        installed: Installed,
    ) -> Option<Rules>
        ensures accepted { IsSome result ↔
            ((do_need_someone policies.items ≡ true) × (needs_someone upgrade ≡ true)
            × (are_keys_of edition ledger installed.orgs ≡ true)) }
        ensures value { IfSome result (λ r. r ≡ record {
          edition = edition;
          ledger = ledger;
          orgs = installed.orgs;
          policies = policies.items;
          upgrade = upgrade;
          installed = installed;
        }) }
    {
        if !do_need_someone(&policies) {
            return None;
        }
        if !needs_someone(&upgrade) {
            return None;
        }
        if !are_keys_of(edition, &ledger, installed.organisations()) {
            return None;
        }
        Some(Rules {
            edition,
            ledger,
            policies,
            upgrade,
            installed,
        })
    }

    /// The edition of the ledger's rules.
    pub fn edition(&self) -> Edition
        ensures { result ≡ self.now.edition }
    {
        self.edition
    }

    /// The SHA-256 of the genesis file.
    pub fn ledger(&self) -> &[u8; 32]
        ensures value { result.now ≡ self.now.ledger }
        ensures size { length self.now.ledger ≡ 32 }
    {
        &self.ledger
    }

    /// The organisations, which are those that are installed. Each has a key of this ledger.
    pub fn organisations(&self) -> &[Organisation]
        ensures value { result.now ≡ self.now.orgs }
        ensures installed { self.now.installed.orgs ≡ self.now.orgs }
        ensures keys { are_keys_of self.now.edition self.now.ledger self.now.orgs ≡ true }
    {
        self.installed.organisations()
    }

    /// The policies of chaincodes.
    pub fn policies(&self) -> &[ChaincodePolicy]
        ensures value { result.now ≡ self.now.policies }
        ensures needed { do_need_someone self.now.policies ≡ true }
    {
        &self.policies
    }

    /// The policy of upgrades and amendments.
    pub fn upgrade(&self) -> &Policy
        ensures value { result.now ≡ self.now.upgrade }
        ensures needed { needs_someone self.now.upgrade ≡ true }
    {
        &self.upgrade
    }

    /// What every peer has installed.
    pub fn installed(&self) -> &Installed
        ensures { result.now ≡ self.now.installed }
    {
        &self.installed
    }

    /// The organisation of this name.
    pub fn organisation(&self, name: &OrgName) -> Option<&Organisation>
        ensures { option_map (λ o. o.now) result ≡ find (is_org name.now) self.now.orgs }
    {
        find_organisation(self.organisations(), name)
    }

    /// The policy of this chaincode.
    pub fn policy(&self, chaincode: &Name) -> Option<&ChaincodePolicy>
        ensures { option_map (λ p. p.now) result
            ≡ find (is_policy_of chaincode.now) self.now.policies }
    {
        self.policies.iter().find(|p| p.is_of(chaincode))
    }
}

impl ChaincodePolicy {
    fn is_of(&self, chaincode: &Name) -> bool
        ensures { result ≡ is_policy_of chaincode.now self.now }
    {
        self.chaincode.as_slice() == chaincode.as_slice()
    }
}
