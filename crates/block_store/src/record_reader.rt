//! Reading a store that comes in pieces.

ghost use Rattle.std.specs.Prelude.{◌≡◌, ◌<◌, ◌≤◌, IfOk, OnErr, drop, length};
ghost use Rattle.block_store.specs.Progress.{Feeds, at_start, end_of};

use crate::end::End;
use crate::records::read_records;
use fab_types::CommittedBlock;
use std::alloc::{AllocError, Global};
use std::marker::Model;

/// A reader of a store that comes in pieces of any size. It gives each record once it is whole, and
/// holds what has come of the next one, fewer than 526,954 bytes.
#[derive(Drop)]
pub struct RecordReader {
    alloc: Global,
    held: Vec<u8>,
    next: u32,
    /// No record is whole while fewer bytes than these are held.
    needed: usize,
    is_damaged: bool,
}

impl Model for RecordReader {
    ghost use Rattle.block_store.specs.Progress as spec;

    ghost Value = { spec.Progress };

    ghost view = { λ r. record { next = r.next; held = r.held.items; is_damaged = r.is_damaged } };

    ghost invariant = { λ r. spec.IsReading r.next r.held.items r.needed };
}

/// Takes away the first bytes.
fn forget(held: &mut Vec<u8>, taken: usize)
    requires { taken ≤ length held.old.items }
    ensures { held.new.items ≡ drop taken held.old.items }
{
    let left = held.len() - taken;
    held.copy_within(taken.., 0);
    held.truncate(left);
}

impl RecordReader {
    /// A reader before the first byte of a store.
    pub fn new(alloc: Global) -> RecordReader
        ensures { result ≡ at_start }
    {
        RecordReader {
            alloc,
            held: Vec::new(alloc),
            next: 1,
            needed: 4,
            is_damaged: false,
        }
    }

    /// Takes the next piece of the store, and gives the records that are whole now. Behind damage
    /// it gives none. The error is of memory; it changes nothing, and the piece may be fed again.
    pub fn feed(&mut self, piece: &[u8]) -> Result<Vec<CommittedBlock>, AllocError>
        ensures fed { IfOk result (λ v. Feeds self.old piece.now v.items self.new) }
        ensures err { OnErr result (self.new ≡ self.old) }
        ensures next { self.new.next ≤ 4000000001 }
        ensures held { length self.new.held < 526954 }
    {
        if self.is_damaged {
            return Ok(Vec::new(self.alloc));
        }
        let before = self.held.len();
        self.held.extend_from_slice(piece)?;
        if self.held.len() < self.needed {
            return Ok(Vec::new(self.alloc));
        }
        match read_records(self.alloc, self.next, &self.held) {
            Ok(read) => {
                forget(&mut self.held, read.taken);
                self.next = read.next;
                self.needed = read.needed;
                self.is_damaged = read.is_damaged;
                Ok(read.records)
            }
            Err(error) => {
                self.held.truncate(before);
                Err(error)
            }
        }
    }

    /// How many bytes are held of a record that is not whole yet: fewer than a record can have.
    pub fn held(&self) -> usize
        ensures value { result ≡ length self.now.held }
        ensures limits { result < 526954 }
    {
        self.held.len()
    }

    /// The number of the next record, 1 to 4,000,000,001. Records have numbers up to 4,000,000,000,
    /// so none has the last.
    pub fn next(&self) -> u32
        ensures value { result ≡ self.now.next }
        ensures limits { result ≤ 4000000001 }
    {
        self.next
    }

    /// Whether the store has shown damage.
    pub fn is_damaged(&self) -> bool
        ensures { result ≡ self.now.is_damaged }
    {
        self.is_damaged
    }

    /// The end of the store, if no more bytes come.
    pub fn finish(self) -> End
        ensures { result ≡ end_of self }
    {
        if self.is_damaged {
            End::Damaged(self.next)
        } else if self.held.is_empty() {
            End::Clean
        } else {
            End::Torn
        }
    }
}
