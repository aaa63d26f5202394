//! Laws of definitions and of endorsed envelopes.

ghost use Rattle.std.specs.Prelude.{◌≡◌, ◌≢◌, List, true, ℕ, Some, None, Ok};
ghost use Rattle.std.specs.FinMap.{get};
ghost use Rattle.fab_types.specs.Memberships.{membership_key};
ghost use Rattle.fab_types.specs.Limits.{IsPolicyText};
ghost use Rattle.fab_types.specs.Payloads.{Payload};
ghost use Rattle.fab_types.specs.declared.definition.Definition.{Definition};
ghost use Rattle.fab_types.specs.declared.edition.Edition.TheVariants.{Second};
ghost use Rattle.fab_types.specs.declared.envelope.Envelope.{Envelope};
ghost use Rattle.fab_types.specs.declared.tag.Tag.TheVariants as tag;
ghost use Rattle.fab_types.specs.declared.membership.Membership.{Membership};
ghost use Rattle.ledger_model.specs.Views.{Plain, Versioned, values_of};
ghost use Rattle.fab_types.specs.Spelling.{definition_bytes};
ghost use Rattle.fab_types.specs.Within.{IsDefinition, IsProposal};
ghost use Rattle.org_keys.specs.Ledgers.{VerifiesTwice};
ghost use Rattle.endorsement_policy.specs.Endorsed.{CarriesRight, Listed, is_endorsed, is_right};
ghost use Rattle.endorsement_policy.specs.Membership.{KeysDiffer, listed_in, standing_in, usable_membership};
ghost use Rattle.endorsement_policy.specs.Installed.{Installed, IsPlaced, names_for, names_known, place_for, usable_by, usable_in};
ghost use Rattle.policy_language.specs.GoodSets.{Names};
ghost use Rattle.policy_language.specs.Limits.{IsText};
ghost use Rattle.endorsement_policy.specs.declared.installed.ModulePlace.{ModulePlace};
ghost use Rattle.endorsement_policy.specs.declared.installed.Usable.{Usable};
ghost use Rattle.policy_language.specs.declared.policy.Policy.{Policy};

use crate::rules::Rules;

/// Where an envelope is endorsed, in whatever state, a right tag of who stands there is on it.
pub fn an_endorsed_envelope_carries_a_right_tag(rules: &Rules)
    ensures { (m : Versioned) (e : Envelope) → is_endorsed rules.now m e ≡ true →
        CarriesRight (listed_in rules.now (values_of m)).orgs e }
{
    let _policies = rules.policies();
    let _upgrade = rules.upgrade();
}

/// A signature that is right as a tag in a ledger of rules 2, in whatever state and on whatever
/// payload, is right in no ledger of another genesis file, but where it verifies for two messages
/// that differ. The other ledger may be one of rules 1. An HMAC is right wherever its key is
/// listed.
pub fn a_signature_is_of_one_ledger(one: &Rules, other: &Rules)
    ensures { (m n : Plain) (p q : Payload) (a b signature : List ℕ) →
        one.now.edition ≡ Second → one.now.ledger ≢ other.now.ledger → IsProposal q.proposal →
        is_right (listed_in one.now m).orgs p
        (record { org = a; tag = tag.Ed25519 signature }) ≡ true →
        is_right (listed_in other.now n).orgs q
        (record { org = b; tag = tag.Ed25519 signature }) ≡ true →
        VerifiesTwice signature }
{
    let _ledger = one.ledger();
    let _keys = one.organisations();
    let _other_ledger = other.ledger();
    let _other_keys = other.organisations();
}

/// In a state without a membership those of the genesis stand.
pub fn unamended()
    ensures { (r : Listed) (m : Plain) → get m membership_key ≡ None → listed_in r m ≡ r }
{}

/// Those who stand by a membership have different public keys, kept ones too (`members`); and so
/// have those who stand in any state where the genesis' organisations have them (`all`).
pub fn public_keys_differ()
    ensures members { (r : Listed) (m : Plain) (s : Membership) →
        usable_membership r.installed.orgs (get m membership_key) ≡ Some s →
        KeysDiffer (standing_in r m).orgs }
    ensures all { (r : Listed) (m : Plain) → KeysDiffer r.orgs → KeysDiffer (standing_in r m).orgs }
{}

/// A definition that can be used has a text that spells its policy within the limits (`spelled`),
/// of any organisations where it is open and their names are all that it has (`known`), and its
/// digest and its profile are those of the module that it means (`placed`); where it means one and
/// the text spells a policy, that is what is found (`found`). What bytes come to is what the one
/// definition that they spell comes to (`read`, `again`).
pub fn usable_definitions_are_spelled()
    ensures spelled { (i : Installed) (d : Definition) (u : Usable) → usable_by i d ≡ Ok u →
        IsPolicyText d.policy → IsText (names_for i d) u.policy d.policy }
    ensures known { (i : Installed) (orgs : Names) (d : Definition) (u : Usable) →
        usable_by i d ≡ Ok u → IsPolicyText d.policy → d.is_open ≡ true →
        names_known orgs d ≡ true → IsText orgs u.policy d.policy }
    ensures placed { (i : Installed) (d : Definition) (u : Usable) → usable_by i d ≡ Ok u →
        IsPlaced i d u.place × (u.fuel ≡ d.fuel) }
    ensures found { (i : Installed) (d : Definition) (place : ModulePlace) (p : Policy) →
        place_for i d ≡ Some place → IsText (names_for i d) p d.policy →
        usable_by i d ≡ Ok (record { place = place; fuel = d.fuel; policy = p }) }
    ensures read { (i : Installed) (bytes : List ℕ) (u : Usable) → usable_in i bytes ≡ Some u →
        (d : Definition) × IsDefinition d × (definition_bytes d ≡ bytes) ×
        (usable_by i d ≡ Ok u) }
    ensures again { (i : Installed) (bytes : List ℕ) (u : Usable) (d : Definition) →
        IsDefinition d → definition_bytes d ≡ bytes → usable_by i d ≡ Ok u →
        usable_in i bytes ≡ Some u }
{}
