//! The last block of an orderer, under both rules.

use crate::samples::{refusal_of, transaction};
use fab_types::{Edition, Envelope};
use orderer::Orderer;
use std::alloc::{AllocError, Global};
use std::test::Fail;

/// Orders a transaction so many times, each in a block. The number of the refusal of the last, or 0.
fn last_refusal(orderer: &mut Orderer, envelope: &Envelope, count: u32) -> Result<u16, AllocError> {
    let mut number = 0;
    for _ in 0..count {
        number = refusal_of(orderer, envelope.clone()?);
    }
    Ok(number)
}

/// Whether under rules 1 the next is refused after 65,535 blocks of a transaction each.
fn is_full(alloc: Global, envelope: &Envelope) -> bool {
    let mut orderer = Orderer::new(alloc, 1, 100, 100, false);
    let is_refused = last_refusal(&mut orderer, envelope, 65_536) == Ok(422);
    is_refused && orderer.blocks().len() == 65_535 && orderer.blocks_from(65_535).len() == 1
}

/// Whether an orderer under rules 2 takes one block more.
fn goes_on(alloc: Global, envelope: &Envelope) -> bool {
    let mut orderer = Orderer::with_edition(alloc, Edition::Second, 1, 100, 100, false);
    let is_taken = last_refusal(&mut orderer, envelope, 65_536) == Ok(0);
    is_taken && orderer.blocks().len() == 65_536
}

#[test]
fn no_block_follows_the_last(rt: HostRuntime) -> Result<(), Fail> {
    let alloc = rt.alloc();
    let Some(envelope) = transaction(alloc, 0, b'a') else {
        return Err("a transaction".into());
    };
    let is_right = is_full(alloc, &envelope) && goes_on(alloc, &envelope);
    assert!(rt; is_right);
    Ok(())
}
