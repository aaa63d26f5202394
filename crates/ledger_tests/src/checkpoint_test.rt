//! The checkpoints of a chain of no blocks and of one of two, byte for byte.

ghost use Rattle.std.specs.Prelude.{OnOk};
ghost use Rattle.kept_state.specs.Keeping.{IsKept};

use crate::samples::is_taken;
use block_store::record_size;
use checkpoint::{checkpoint_digest, write_checkpoint};
use fab_types::limits::LAST_BLOCK;
use fab_types::{Block, Envelope, Flag};
use hmac_tag::tag;
use kept_state::KeptChain;
use orderer::Orderer;
use std::alloc::{AllocError, Global};
use std::test::Fail;
use store_devices::Places;
use wire::decode_envelope;
use world_state::{Judged, Past, tx_ids};

/// The SHA-256 of a genesis file.
const GENESIS: [u8; 32] =
    *b"\x20\x3a\xd0\x33\xbb\x53\xa1\xf7\xfd\x91\x22\xef\xb1\x3b\xb8\x2d\x5a\x25\x2d\xb1\x72\x96\x1e\x0f\x37\xf1\x22\xf6\x37\xd1\x45\x14";

/// The checkpoint of no blocks behind it.
const EMPTY: [u8; 132] =
    *b"\x63\x6b\x70\x74\x00\x00\x00\x01\x20\x3a\xd0\x33\xbb\x53\xa1\xf7\xfd\x91\x22\xef\xb1\x3b\xb8\x2d\x5a\x25\x2d\xb1\x72\x96\x1e\x0f\x37\xf1\x22\xf6\x37\xd1\x45\x14\x00\x00\x00\x00\x00\x00\x00\x00\x00\x00\x00\x00\x00\x00\x00\x00\x00\x00\x00\x00\x00\x00\x00\x00\x00\x00\x00\x00\x00\x00\x00\x00\x00\x00\x00\x00\x00\x00\x00\x00\x00\x00\x00\x00\x00\x00\x00\x00\x00\x00\x00\x00\x00\x00\x00\x00\x00\x00\x00\x00\x92\xe3\xb1\x68\x32\x7a\x48\x44\xfb\xba\x49\x7a\x1f\x08\x6e\xac\x08\xe7\xe1\x01\x07\xbf\xba\x2e\x45\x1f\x41\xb5\xcc\xd3\x9d\x23";

/// That of two blocks, of which each puts `1` at `a`.
const TWO: [u8; 289] =
    *b"\x63\x6b\x70\x74\x00\x00\x00\x01\x20\x3a\xd0\x33\xbb\x53\xa1\xf7\xfd\x91\x22\xef\xb1\x3b\xb8\x2d\x5a\x25\x2d\xb1\x72\x96\x1e\x0f\x37\xf1\x22\xf6\x37\xd1\x45\x14\x00\x00\x00\x02\xcf\x45\xea\xb7\x15\xe4\x20\x83\x79\x3a\xb6\x38\x70\x15\x40\x66\xea\xd6\x1c\x5f\x8a\xde\xdc\xe2\x13\x49\x06\x06\xff\xe8\x2b\xf8\x00\x00\x00\x02\x89\x0b\x87\x41\xcf\x58\xf0\x8b\x82\x51\x50\xa1\x9d\x3a\xc5\xb6\xb3\x59\x49\x1e\x65\xdb\x01\x58\x79\x15\x1f\xc3\xdc\x6f\x12\xde\x00\x00\x00\xba\xcf\x45\xea\xb7\x15\xe4\x20\x83\x79\x3a\xb6\x38\x70\x15\x40\x66\xea\xd6\x1c\x5f\x8a\xde\xdc\xe2\x13\x49\x06\x06\xff\xe8\x2b\xf8\x00\x00\x00\xba\x00\x00\x00\x00\x00\x00\x00\x00\x00\x00\x00\x01\x01\x61\x00\x01\x31\x00\x00\x00\x02\x00\x00\x00\x00\x00\x00\x00\x00\x00\x00\x00\x02\x19\x20\x92\x37\xa3\x1a\x6e\xe2\x3c\xd6\x84\xfc\x20\x2c\xe6\xac\x65\x71\x36\xd8\x4c\xd3\xdf\xcb\x8d\xa0\xf0\xfd\x50\x46\xca\xd2\x00\x00\x00\x02\x75\xff\x09\x57\xe5\xf7\x7a\x00\xe5\xd4\x6a\x21\x35\xc1\x16\xf5\x50\xfc\x6c\xcf\x86\xb0\x3a\x3d\x5c\xa7\x11\xd0\x8a\xbd\x05\x34\x00\x00\x00\x01\x4a\x18\xb9\xc4\xde\xf2\xba\xd9\x82\x9a\xe5\x38\x72\x87\x02\x8e\x1e\x8e\x1e\xda\xde\x5e\xd2\x48\xcf\x02\x3a\x61\xed\x1b\xda\x44";

/// The payload of a call of `kv` that read its definition as absent and nothing else, and puts `1`
/// at `a`. Its nonce is 0.
const PAYLOAD: [u8; 40] =
    *b"\x02kv\x00\x00\x00\x00\x00\x00\x00\x00\x00\x00\x00\x00\x00\x00\x00\x00\x00\x00\x00\x00\x00\x01\x03\x00kv\x00\x00\x00\x00\x01\x01a\x01\x00\x011";

/// The last byte of the nonce.
const NONCE: usize = 20;

/// The call with a nonce, endorsed by A. None for want of memory.
fn call(alloc: Global, nonce: u8) -> Option<Envelope> {
    let mut payload = PAYLOAD;
    payload[NONCE] = nonce;
    let mut bytes = Vec::with_capacity(alloc, 75).ok()?;
    bytes.extend_from_slice(&payload).ok()?;
    bytes.extend_from_slice(b"\x01\x01A").ok()?;
    bytes.extend_from_slice(&tag(b"Jefe", &payload)).ok()?;
    decode_envelope(alloc, &bytes).ok()
}

/// Whether a block of one transaction, which is VALID, is put behind a chain.
fn is_put(
    alloc: Global,
    chain: &mut KeptChain,
    places: &mut Places,
    block: &Block,
) -> Result<bool, AllocError>
    requires { IsKept chain.old }
    ensures { OnOk result (IsKept chain.new) }
{
    let is_next = block.header.number.get() == chain.height() + 1;
    let has_room = places.span(LAST_BLOCK).is_none();
    if !is_next || !has_room || block.envelopes.as_slice().len() != 1 {
        return Ok(false);
    }
    let mut flags = Vec::with_capacity(alloc, 1)?;
    flags.push(Flag::Valid)?;
    let ids = tx_ids(alloc, block)?;
    let committed = chain.extend(alloc, block.clone()?, Judged { flags, ids })?;
    places.push(record_size(&committed))?;
    Ok(true)
}

/// Whether the checkpoint of a chain has these bytes, and its digest is that at their end.
fn is_written(alloc: Global, chain: &KeptChain, places: &Places, bytes: &[u8]) -> bool {
    let mut out = Vec::new(alloc);
    let written = write_checkpoint(alloc, &GENESIS, chain, places, &mut out);
    let digest = checkpoint_digest(alloc, &GENESIS, chain, places);
    match (written, digest) {
        (Ok(written), Ok(digest)) => {
            out.as_slice() == bytes && bytes.ends_with(&written) && written == digest
        }
        _ => false,
    }
}

/// Whether the chain of no blocks, and that of both, have their checkpoints.
fn are_written(alloc: Global, blocks: &[Block]) -> Result<bool, AllocError> {
    let [first, second] = blocks else {
        return Ok(false);
    };
    let mut chain = KeptChain::empty(alloc);
    let mut places = Places::new(alloc);
    let is_empty = is_written(alloc, &chain, &places, &EMPTY);
    let are_put = is_put(alloc, &mut chain, &mut places, first)?
        && is_put(alloc, &mut chain, &mut places, second)?;
    Ok(is_empty && are_put && is_written(alloc, &chain, &places, &TWO))
}

#[test]
fn two_blocks_have_their_checkpoint(rt: HostRuntime) -> Result<(), Fail> {
    let alloc = rt.alloc();
    let mut orderer = Orderer::new(alloc, 1, 65_536, 524_288, false);
    let are_ordered = is_taken(&mut orderer, call(alloc, 1))
        && is_taken(&mut orderer, call(alloc, 2));
    assert!(rt; are_ordered && are_written(alloc, orderer.blocks()) == Ok(true));
    Ok(())
}
