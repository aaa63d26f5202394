//! One round of a seat.

ghost use Rattle.std.specs.Prelude.{◌≡◌, ◌++◌, ◌∷◌, [], IfOk};
ghost use Rattle.std.specs.Int.{w64, to_be_bytes};
ghost use Rattle.peer_node.specs.Seats.{seen_chain, peer_of, endorsing_of};
ghost use Rattle.seat_threads.specs.Rounds.{proposal_of, ComesTo};

use fab_types::{Call, Endorsement, Endorsements, Envelope, Name, Proposal, Value};
use peer_node::{FinishRefusal, Seat};
use std::alloc::{AllocError, Global};

/// The numbers of a seat and of a round, each in 8 bytes, the highest byte first.
fn nonce(seat: u64, round: u64) -> [u8; 16]
    ensures { result ≡ to_be_bytes w64 seat ++ to_be_bytes w64 round }
{
    let mut nonce = [0; 16];
    let (front, back) = nonce.split_at_mut(8);
    front.copy_from_slice(&seat.to_be_bytes());
    back.copy_from_slice(&round.to_be_bytes());
    nonce
}

/// What a seat proposes in a round: a call without an argument.
pub fn proposal(
    alloc: Global,
    chaincode: &Name,
    seat: u64,
    round: u64,
) -> Result<Proposal, AllocError>
    ensures { IfOk result (λ p. p ≡ proposal_of chaincode.now seat round) }
{
    Ok(Proposal::Call(Call {
        chaincode: chaincode.clone()?,
        argument: Value::new(Vec::new(alloc)).unwrap(),
        nonce: nonce(seat, round),
    }))
}

/// The envelope of a proposal, with the seat's endorsement alone. Refused as the seat's endorsement
/// is, and for want of memory.
pub fn envelope(
    alloc: Global,
    seat: &mut Seat,
    proposal: &Proposal,
) -> Result<Envelope, FinishRefusal>
    ensures comes { ComesTo (endorsing_of seat.old) proposal.now (seen_chain seat.old)
        (seen_chain seat.new) result }
    ensures same { (endorsing_of seat.new ≡ endorsing_of seat.old) ×
        (peer_of seat.new ≡ peer_of seat.old) }
{
    let (payload, endorsement) = seat.endorse(proposal)?;
    let endorsements = alone(alloc, endorsement)?;
    Ok(Envelope {
        payload,
        endorsements,
    })
}

/// One endorsement.
fn alone(alloc: Global, endorsement: Endorsement) -> Result<Endorsements, AllocError>
    ensures { IfOk result (λ s. s ≡ endorsement ∷ []) }
{
    let items = vec![in alloc; endorsement]?;
    Ok(Endorsements::new(items).unwrap())
}
