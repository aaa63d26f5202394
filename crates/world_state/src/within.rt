//! Blocks are within the limits of the ledger, as the getters of their parts tell.

ghost use Rattle.std.specs.List.{AllByRecursion};
ghost use Rattle.fab_types.specs.BlockWithin.{IsBlock, IsEndorsement, IsEnvelope};

use fab_types::{Block, Endorsement, Envelope};

/// A block is within the limits.
pub(crate) fn show_block(block: &Block)
    ensures { IsBlock block.now }
{
    let _number = block.header.number.get();
    let _previous: &[u8] = &block.header.previous_hash;
    let _data: &[u8] = &block.header.data_hash;
    show_envelopes(block.envelopes.as_slice());
}

/// Envelopes are.
fn show_envelopes(envelopes: &[Envelope])
    ensures { AllByRecursion IsEnvelope envelopes.now }
{
    if let [first, rest @ ..] = envelopes {
        let _payload = first.payload.bytes();
        show_endorsements(first.endorsements.as_slice());
        show_envelopes(rest);
    }
}

/// Endorsements are.
fn show_endorsements(endorsements: &[Endorsement])
    ensures { AllByRecursion IsEndorsement endorsements.now }
{
    if let [first, rest @ ..] = endorsements {
        let _org = first.org.as_slice();
        let _tag = first.tag.as_slice();
        show_endorsements(rest);
    }
}
