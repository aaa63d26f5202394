//! What a line asks for.

ghost use Rattle.std.specs.Prelude.{◌≡◌, IfOk, IfErr};
ghost use Rattle.log_orderer.specs.Lines.{IsMark};
ghost use Rattle.log_orderer.specs.Asking.{mark_of, unread_of, IsUnread};
ghost use Rattle.log_orderer.specs.declared.asked.Unread.TheVariants.{Memory};

use crate::skip::Skip;
use fab_types::Envelope;
use hex::FromHexError;
use std::alloc::{AllocError, Global};
use wire::{WireFault, decode_envelope};

/// What a line asks an orderer for.
#[derive(Drop)]
pub(crate) enum Asked {
    /// To take an envelope.
    Accept(Envelope),
    /// To cut what waits.
    Tick,
}

/// Why nothing is known that a line asks for.
#[derive(Clone, Copy, Drop)]
pub(crate) enum Unread {
    /// A growth of memory was refused.
    Memory,
    /// The line asks for nothing.
    Nothing(Skip),
}

impl From<AllocError> for Unread {
    ghost from_gives = { λ _ u. u ≡ Memory };

    fn from(_error: AllocError) -> Unread {
        Unread::Memory
    }
}

/// What a fault of an envelope's bytes says of their line.
fn why_unread(fault: WireFault) -> Unread
    ensures { result ≡ unread_of fault }
{
    match fault {
        WireFault::Memory => Unread::Memory,
        WireFault::EndedEarly => Unread::Nothing(Skip::EndedEarly),
        WireFault::EnvelopeLength => Unread::Nothing(Skip::EnvelopeLength),
        WireFault::NotCanonical => Unread::Nothing(Skip::NotCanonical),
        WireFault::Limit => Unread::Nothing(Skip::Limit),
        WireFault::BytesLeft => Unread::Nothing(Skip::BytesLeft),
    }
}

/// What a line asks for.
pub(crate) fn asked_by(alloc: Global, line: &str) -> Result<Asked, Unread>
    ensures asked { IfOk result (λ asked. IsMark line.now (mark_of asked)) }
    ensures nothing { IfErr result (λ why. IsUnread why line.now) }
{
    if line == "tick" {
        return Ok(Asked::Tick);
    }
    let bytes = match hex::decode(alloc, line) {
        Ok(bytes) => bytes,
        Err(FromHexError::OutOfMemory) => return Err(Unread::Memory),
        Err(_) => return Err(Unread::Nothing(Skip::NoHex)),
    };
    match decode_envelope(alloc, &bytes) {
        Ok(envelope) => Ok(Asked::Accept(envelope)),
        Err(fault) => Err(why_unread(fault)),
    }
}
