//! Which membership stands before a block.

ghost use Rattle.std.specs.Prelude.{◌≡◌, None, option_map, take};
ghost use Rattle.world_state.specs.Shared.{blocks_in};
ghost use Rattle.json_chain.specs.Standing.{amended, amended_by, membership_behind};

use fab_types::{CommittedBlock, Flag, Membership, Proposal};
use std::sync::Arc;
use world_state::Snapshot;

/// The membership behind the first blocks of a chain: that of their last VALID amendment. None
/// where there is none, and the genesis stands.
pub fn membership_behind(blocks: &[Arc<CommittedBlock>]) -> Option<&Membership>
    ensures { option_map (λ s. s.now) result ≡ membership_behind None (blocks_in blocks.now) }
{
    let mut membership = None;
    for committed in blocks {
        membership = amended_by(membership, committed);
    }
    membership
}

/// The same of the first blocks of a snapshot's chain, of so many. No block but that of the
/// amendment is looked at.
pub fn membership_at(snapshot: &Snapshot, height: usize) -> Option<&Membership>
    ensures { option_map (λ s. s.now) result ≡ membership_behind None (take height snapshot.now) }
{
    match snapshot.last_amending(height) {
        Some(committed) => amended_by(None, committed),
        None => None,
    }
}

/// The membership behind a block, where this one stood before it.
pub fn amended_by<'a>(
    was: Option<&'a Membership>,
    committed: &'a CommittedBlock,
) -> Option<&'a Membership>
    ensures { option_map (λ s. s.now) result
        ≡ amended_by (option_map (λ s. s.now) was.entry) committed.now.block.envelopes
        committed.now.flags }
{
    let envelopes = committed.block().envelopes.as_slice();
    let flags = committed.flags();
    let mut membership = was;
    for place in 0..envelopes.len() {
        membership = amended(
            membership,
            flags[place],
            envelopes[place].payload.proposal(),
        );
    }
    membership
}

/// The membership behind a transaction: that of a VALID amendment, or the one before.
fn amended<'a>(
    was: Option<&'a Membership>,
    flag: Flag,
    proposal: &'a Proposal,
) -> Option<&'a Membership>
    ensures { option_map (λ s. s.now) result
        ≡ amended (option_map (λ s. s.now) was.entry) flag proposal.now }
{
    match (flag, proposal) {
        (Flag::Valid, Proposal::Amend(amend)) => Some(&amend.membership),
        _ => was,
    }
}
