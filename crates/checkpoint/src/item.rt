//! What a checkpoint has a list of.

ghost use Rattle.std.specs.Prelude.{◌≡◌, ◌++◌, List, ℕ, OnOk};
ghost use Rattle.std.specs.Map.Iter.{deref_pair};
ghost use Rattle.fab_types.specs.Spelling.{long_bytes};
ghost use Rattle.checkpoint.specs.Checkpoint.{amendment_bytes, kept_entry_bytes, placed_id_bytes, sized_hash_bytes};
ghost use Rattle.checkpoint.specs.Within.{IsAmendment, IsHash, IsKeptEntry, IsPlacedId};

use fab_types::{Key, Spelled, Value, Version};
use id_runs::Entry;
use kept_state::Amendment;
use std::alloc::AllocError;
use std::sync::Arc;
use wire::encode_membership;

/// One of a list.
pub(crate) trait Item {
    /// Its bytes.
    ghost spelling: { Self → List ℕ };

    /// Holds of what is within the ledger's limits, which is all that there is.
    ghost within: { Self → Type 0 };

    /// Appends its bytes. The error is of memory.
    fn write(&self, out: &mut Vec<u8>) -> Result<(), AllocError>
        ensures spelled { OnOk result (out.new.items ≡ out.old.items ++ spelling self.now) }
        ensures within { OnOk result (within self.now) };
}

/// The hash of a block's header, and the length of its record.
impl Item for (&[u8; 32], u64) {
    ghost spelling = { λ b. sized_hash_bytes (b.0.now, b.1) };

    ghost within = { λ b. IsHash b.0.now };

    fn write(&self, out: &mut Vec<u8>) -> Result<(), AllocError> {
        let (hash, size) = self;
        out.extend_from_slice(*hash)?;
        out.extend_from_slice(&size.to_be_bytes()[4..])
    }
}

/// Appends the last two bytes of the length, and the bytes.
fn write_long(bytes: &[u8], out: &mut Vec<u8>) -> Result<(), AllocError>
    ensures { OnOk result (out.new.items ≡ out.old.items ++ long_bytes bytes.now) }
{
    let len = (bytes.len() as u64).to_be_bytes();
    out.extend_from_slice(&len[6..])?;
    out.extend_from_slice(bytes)
}

impl Item for Arc<Amendment> {
    ghost spelling = { λ a. amendment_bytes a.value };

    ghost within = { λ a. IsAmendment a.value };

    fn write(&self, out: &mut Vec<u8>) -> Result<(), AllocError> {
        let amendment: &Amendment = self;
        let membership = encode_membership(*out.allocator(), &amendment.1)?;
        out.extend_from_slice(&amendment.0.to_be_bytes())?;
        write_long(&membership, out)
    }
}

/// An entry of the state.
impl Item for (&Key, &(Value, Version)) {
    ghost spelling = { λ e. kept_entry_bytes (deref_pair e) };

    ghost within = { λ e. IsKeptEntry (deref_pair e) };

    fn write(&self, out: &mut Vec<u8>) -> Result<(), AllocError> {
        let (key, entry) = self;
        key.write(out)?;
        entry.0.write(out)?;
        entry.1.write(out)
    }
}

/// An id, and the block where it stands first.
impl Item for Entry {
    ghost spelling = { placed_id_bytes };

    ghost within = { IsPlacedId };

    fn write(&self, out: &mut Vec<u8>) -> Result<(), AllocError> {
        out.extend_from_slice(&self.0)?;
        out.extend_from_slice(&self.1.to_be_bytes())
    }
}
