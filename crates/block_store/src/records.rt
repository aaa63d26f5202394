//! The records at the front of some bytes.

ghost use Rattle.std.specs.Prelude.{◌≤◌, IfOk, drop, length};
ghost use Rattle.block_store.specs.Progress.{Reads};
ghost use Rattle.block_store.specs.Store.{Awaits};

use crate::front::{Front, look_at_front};
use fab_types::CommittedBlock;
use std::alloc::{AllocError, Global};

/// The records, and what is left behind them.
#[derive(Drop)]
pub(crate) struct Records {
    pub(crate) records: Vec<CommittedBlock>,
    /// The number of the record after them.
    pub(crate) next: u32,
    /// How many bytes need not be held any more.
    pub(crate) taken: usize,
    /// While fewer bytes than these stand behind them, there is no other record.
    pub(crate) needed: usize,
    pub(crate) is_damaged: bool,
}

/// The whole records from number `next` on.
pub(crate) fn read_records(alloc: Global, next: u32, bytes: &[u8]) -> Result<Records, AllocError>
    requires { next ≤ 4000000001 }
    ensures read { IfOk result (λ r. Reads next bytes.now r.records.items
        (record { next = r.next; held = drop r.taken bytes.now; is_damaged = r.is_damaged })) }
    ensures taken { IfOk result (λ r. r.taken ≤ length bytes.now) }
    ensures awaits { IfOk result (λ r. Awaits r.next (drop r.taken bytes.now) r.needed) }
    ensures next { IfOk result (λ r. r.next ≤ 4000000001) }
{
    let mut records = Vec::new(alloc);
    let mut number = next;
    let mut at = 0;
    loop {
        match look_at_front(alloc, number, &bytes[at..])? {
            Front::Whole(record, taken) => {
                records.push(record)?;
                number += 1;
                at += taken;
            }
            Front::Beginning(needed) => {
                return Ok(Records {
                    records,
                    next: number,
                    taken: at,
                    needed,
                    is_damaged: false,
                });
            }
            Front::Damaged => {
                return Ok(Records {
                    records,
                    next: number,
                    taken: bytes.len(),
                    needed: 0,
                    is_damaged: true,
                });
            }
        }
    }
}
