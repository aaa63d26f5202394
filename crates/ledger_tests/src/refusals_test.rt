//! What refusals are printed as that no line of a program prints.

use committer::CommitRefusal;
use orderer::{OrderCause, OrderRefusal};
use peer_node::{FinishRefusal, OpenRefusal, ReopenRefusal, TakeRefusal};
use seat_threads::SeatsRefusal;
use simulator::SimRefusal;
use std::alloc::{AllocError, Global};
use std::test::Fail;
use store_replay::RecommitRefusal;

/// Of an orderer, a block and a finish.
fn printed(alloc: Global, order: &OrderRefusal) -> Result<String, AllocError> {
    format!(in alloc;
        "{order}, {}, {}, {}, {}",
        CommitRefusal::AtEnd,
        FinishRefusal::from(SimRefusal::Stale),
        FinishRefusal::from(TakeRefusal::NotEntered),
        FinishRefusal::from(AllocError)
    )
}

/// Of a peer that does not come back.
fn printed_of_stores(alloc: Global) -> Result<String, AllocError> {
    format!(in alloc;
        "{}, {}, {}, {}",
        ReopenRefusal::Stored(RecommitRefusal::Flags(2)),
        RecommitRefusal::Unfit(3, CommitRefusal::PreviousHash),
        RecommitRefusal::Memory,
        ReopenRefusal::Open(OpenRefusal::NoPlace)
    )
}

/// Of a cell and its seats.
fn printed_of_seats(alloc: Global) -> Result<String, AllocError> {
    format!(in alloc;
        "{}, {}, {}, {}, {}, {}",
        OpenRefusal::Memory,
        TakeRefusal::NotEntered,
        TakeRefusal::Memory,
        SeatsRefusal::NoPlace,
        SeatsRefusal::NotEntered,
        SeatsRefusal::from(AllocError)
    )
}

/// Whether a text was made, and is this one.
fn is_text(text: Result<String, AllocError>, wanted: &str) -> bool {
    match text {
        Ok(text) => text.as_str() == wanted,
        Err(_) => false,
    }
}

#[test]
fn refusals_are_printed(rt: HostRuntime) -> Result<(), Fail> {
    let alloc = rt.alloc();
    let order = OrderRefusal {
        envelope: None,
        cause: OrderCause::NoNumber,
    };
    let are_printed = is_text(
        printed(alloc, &order),
        "refused 422, refused 604, refused 405, refused 432, refused 9",
    ) && is_text(
        printed_of_stores(alloc),
        "refused 711 block 2, refused 602 block 3, refused 9, refused 431",
    ) && is_text(
        printed_of_seats(alloc),
        "refused 9, refused 432, refused 9, refused 431, refused 432, refused 9",
    );
    assert!(rt; are_printed);
    Ok(())
}
