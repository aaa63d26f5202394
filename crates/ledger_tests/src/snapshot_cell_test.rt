//! A seat of the cell that moves to a second thread with what its writer told.

ghost use Rattle.std.specs.Prelude.{◌≡◌, [], IfOk};
ghost use Rattle.snapshot_cell.specs.Lists.{OneMore};
ghost use Rattle.snapshot_cell.specs.Seats.{published_list, cell_of_reader, cell_of_writer, cell_of_told};

use crate::samples::{GET_PUT_A, Setup, opening};
use ledger_setting::commit;
use snapshot_cell::{Reader, Told, Writer, open};
use std::alloc::Global;
use std::sync::Wait;
use std::test::Fail;
use std::thread::{Threads, join};
use world_state::Snapshot;

/// The snapshot after the first block of a chain.
fn one_block(alloc: Global, setup: &Setup) -> Result<Snapshot, Fail>
    ensures { IfOk result (λ s. OneMore [] s) }
{
    let [first] = setup.chain.blocks() else {
        return Err("a block".into());
    };
    let block = first.clone()?;
    let mut snapshot = Snapshot::empty(alloc);
    match commit(alloc, &setup.genesis.rules, &mut snapshot, block) {
        Ok(()) => Ok(snapshot),
        Err(_) => Err("a snapshot".into()),
    }
}

/// The snapshot after one block.
fn first_snapshot(alloc: Global) -> Result<Snapshot, Fail>
    ensures { IfOk result (λ s. OneMore [] s) }
{
    let setup = opening(alloc, GET_PUT_A, 1)?;
    one_block(alloc, &setup)
}

/// The height that a seat takes once it has learned what was told, or 0.
fn height_after(seat: Reader, told: Told) -> usize
    requires { cell_of_told told ≡ cell_of_reader seat }
{
    let mut seat = seat;
    seat.learn(&told);
    match seat.take() {
        Ok(snapshot) => snapshot.height(),
        Err(_) => 0,
    }
}

/// The height that a seat takes on a second thread, where it learns of a block that was published
/// on this one.
fn height_elsewhere<R: Threads + Wait + Sync>(
    rt: &R,
    writer: &mut Writer,
    seat: Reader,
    next: Snapshot,
) -> usize
    requires cell { cell_of_writer writer.old ≡ cell_of_reader seat }
    requires next { OneMore (published_list writer.old) next }
{
    let Ok(told) = writer.publish(rt, next) else {
        return 0;
    };
    let there = move || -> usize
        requires { cell_of_told told ≡ cell_of_reader seat }
    { height_after(seat, told) };
    join(rt, there, || ()).0
}

#[test]
fn a_seat_learns_on_a_second_thread(rt: HostRuntime) -> Result<(), Fail> {
    let alloc = rt.alloc();
    let next = first_snapshot(alloc)?;
    let Ok((mut writer, mut seats)) = open(&rt, alloc, Snapshot::empty(alloc), 1) else {
        return Err("a cell".into());
    };
    let height = match seats.pop() {
        Some(seat) => height_elsewhere(&rt, &mut writer, seat, next),
        None => 0,
    };
    writer.close(&rt);
    assert!(rt; height == 1);
    Ok(())
}
