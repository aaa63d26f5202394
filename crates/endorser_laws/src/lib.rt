//! A law of what endorsers hand out, which takes no time to run.
#![tactic(auto)]

ghost use Rattle.endorser_laws.specs.Laws.{SealedIsRight};

/// What an organisation puts on a payload in a state is right there just where the organisation
/// stands there and its key is at hand: a shared one, or a public one whose seed is there. So all
/// that an `endorser::Endorser` of such an organisation hands out counts, and nothing that another
/// does, as long as who stands is the same.
pub fn what_is_sealed_is_right()
    ensures { SealedIsRight }
{
    ed25519_laws::signed_is_verified()
}
