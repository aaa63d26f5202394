//! Laws of what organisations sign.

ghost use Rattle.std.specs.Prelude.{◌≡◌, ◌≢◌, ℕ, List, Ok, true};
ghost use Rattle.endorsement_policy.specs.Endorsed.{is_right};
ghost use Rattle.endorsement_policy.specs.Judge.{orgs_behind};
ghost use Rattle.endorser.specs.Endorsing.{endorsed_on};
ghost use Rattle.fab_types.specs.Payloads.{Payload};
ghost use Rattle.fab_types.specs.Spelling.{payload_bytes};
ghost use Rattle.fab_types.specs.Within.{IsProposal};
ghost use Rattle.fab_types.specs.declared.envelope.Endorsement.{Endorsement};
ghost use Rattle.fab_types.specs.declared.proposal.Proposal.{Proposal};
ghost use Rattle.ledger_model.specs.Chain.{Bytes, Chain};
ghost use Rattle.ledger_setting.specs.declared.genesis.Genesis.{Genesis};
ghost use Rattle.peer_answers.specs.Calls.{endorses_by};
ghost use Rattle.peer_answers.specs.Placing.{place_in};
ghost use Rattle.peer_answers.specs.Seen.{seen_bytes};
ghost use Rattle.peer_answers.specs.declared.place.Place.TheVariants.{Stands};

use endorser_laws::what_is_sealed_is_right;

/// What an organisation signs of a block that it has is no payload: a signature of the one is no
/// endorsement of the other. It takes no time to run.
pub fn seen_is_no_payload()
    ensures { (genesis hash : List ℕ) (number : ℕ) (p : Payload) → IsProposal p.proposal →
        seen_bytes genesis number hash ≢ payload_bytes p }
{}

/// What a peer answers as endorsed is right in the very state that the call was made on, by the key
/// with which its organisation stands there. It takes no time to run.
pub fn what_is_endorsed_is_right()
    ensures { (g : Genesis) (org : Bytes) (chain : Chain) (p : Proposal) (e : Payload × Endorsement) →
        place_in g chain org ≡ Stands → endorsed_on (endorses_by g org) p chain ≡ Ok e →
        is_right (orgs_behind g.rules.value chain) e.0 e.1 ≡ true }
{
    what_is_sealed_is_right()
}
