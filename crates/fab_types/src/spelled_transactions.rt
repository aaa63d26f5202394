//! The bytes of definitions, proposals, payloads, envelopes and headers.

ghost use Rattle.std.specs.Prelude.{◌≡◌, ◌≤◌, length};
ghost use Rattle.std.specs.Int.{to_be_bytes, w32};
ghost use Rattle.std.specs.List.{AllByRecursion};
ghost use Rattle.fab_types.specs.Limits.{IsFuel};
ghost use Rattle.fab_types.specs.Spelling.{amend_bytes, call_bytes, definition_bytes, few_bytes, form_of, payload_bytes, proposal_bytes, upgrade_bytes};
ghost use Rattle.fab_types.specs.BlockSpelling.{endorsement_bytes, envelope_bytes, header_bytes};
ghost use Rattle.fab_types.specs.Within.{IsAmend, IsCall, IsDefinition, IsPayload, IsProposal, IsUpgrade};
ghost use Rattle.fab_types.specs.BlockWithin.{IsEndorsement, IsEnvelope, IsHeader};

use crate::block::Header;
use crate::definition::{Definition, Fuel};
use crate::envelope::{Endorsement, Endorsements, Envelope};
use crate::payload::Payload;
use crate::proposal::{Amend, Call, Proposal, Upgrade};
use crate::spelled::{Spelled, write_few};
use crate::tag::Tag;
use std::alloc::AllocError;

impl Spelled for Fuel {
    ghost spelling = { to_be_bytes w32 };

    ghost within = { IsFuel };

    fn write(&self, out: &mut Vec<u8>) -> Result<(), AllocError> {
        out.extend_from_slice(&self.get().to_be_bytes())
    }
}

/// The first byte of a definition: its profile's number, 1 or 2, and 16 more where it is open.
pub fn form_of(definition: &Definition) -> u8
    ensures { result ≡ form_of definition.now }
{
    let profile = definition.profile.number();
    if definition.is_open {
        16 + profile
    } else {
        profile
    }
}

impl Spelled for Definition {
    ghost spelling = { definition_bytes };

    ghost within = { IsDefinition };

    fn write(&self, out: &mut Vec<u8>) -> Result<(), AllocError> {
        out.push(form_of(self))?;
        out.extend_from_slice(&self.digest)?;
        self.fuel.write(out)?;
        self.policy.write(out)
    }
}

impl Spelled for Call {
    ghost spelling = { call_bytes };

    ghost within = { IsCall };

    fn write(&self, out: &mut Vec<u8>) -> Result<(), AllocError> {
        self.chaincode.write(out)?;
        self.argument.write(out)?;
        out.extend_from_slice(&self.nonce)
    }
}

impl Spelled for Upgrade {
    ghost spelling = { upgrade_bytes };

    ghost within = { IsUpgrade };

    fn write(&self, out: &mut Vec<u8>) -> Result<(), AllocError> {
        self.chaincode.write(out)?;
        self.definition.write(out)?;
        out.extend_from_slice(&self.nonce)
    }
}

impl Spelled for Amend {
    ghost spelling = { amend_bytes };

    ghost within = { IsAmend };

    fn write(&self, out: &mut Vec<u8>) -> Result<(), AllocError> {
        self.membership.write(out)?;
        out.extend_from_slice(&self.nonce)
    }
}

impl Spelled for Proposal {
    ghost spelling = { proposal_bytes };

    ghost within = { IsProposal };

    fn write(&self, out: &mut Vec<u8>) -> Result<(), AllocError> {
        match self {
            Proposal::Call(call) => call.write(out),
            Proposal::Upgrade(upgrade) => {
                out.push(0)?;
                upgrade.write(out)
            }
            Proposal::Amend(amend) => {
                out.push(128)?;
                amend.write(out)
            }
        }
    }
}

impl Spelled for Payload {
    ghost spelling = { payload_bytes };

    ghost within = { IsPayload };

    fn write(&self, out: &mut Vec<u8>) -> Result<(), AllocError> {
        out.extend_from_slice(self.bytes())
    }
}

impl Spelled for Endorsement {
    ghost spelling = { endorsement_bytes };

    ghost within = { IsEndorsement };

    fn write(&self, out: &mut Vec<u8>) -> Result<(), AllocError> {
        if let Tag::Ed25519(_) = self.tag {
            out.push(0)?;
        }
        self.org.write(out)?;
        out.extend_from_slice(self.tag.as_slice())
    }
}

impl Spelled for Endorsements {
    ghost spelling = { few_bytes endorsement_bytes };

    ghost within = { λ es. (length es ≤ 32) × AllByRecursion IsEndorsement es };

    fn write(&self, out: &mut Vec<u8>) -> Result<(), AllocError> {
        write_few(self.as_slice(), out)
    }
}

impl Spelled for Envelope {
    ghost spelling = { envelope_bytes };

    ghost within = { IsEnvelope };

    fn write(&self, out: &mut Vec<u8>) -> Result<(), AllocError> {
        self.payload.write(out)?;
        self.endorsements.write(out)
    }
}

impl Spelled for Header {
    ghost spelling = { header_bytes };

    ghost within = { IsHeader };

    fn write(&self, out: &mut Vec<u8>) -> Result<(), AllocError> {
        out.extend_from_slice(&self.number.get().to_be_bytes())?;
        out.extend_from_slice(&self.previous_hash)?;
        out.extend_from_slice(&self.data_hash)
    }
}
