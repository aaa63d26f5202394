//! Where the records of a store lie.

ghost use Rattle.std.specs.Prelude.{◌≡◌, ◌≤◌, ◌<◌, ◌+◌, ◌^◌, ◌++◌, ◌∷◌, [], IfSome, OnErr, OnOk, length};
ghost use Rattle.store_devices.specs.Places.{last_end, span_at};

use std::alloc::{AllocError, Global};
use std::marker::Model;

/// Where the records of a store end, by their numbers from 1 on: 8 bytes a record.
#[derive(Drop)]
pub struct Places {
    ends: Vec<u64>,
}

impl Model for Places {
    ghost use Rattle.std.specs.Prelude.{ℕ, List, ◌≤◌, ◌*◌, length};
    ghost use Rattle.store_devices.specs.Places.{last_end};

    ghost Value = { List ℕ };

    ghost view = { λ p. p.ends.items };

    ghost invariant = { λ p. last_end p.ends.items ≤ 526954 * length p.ends.items };
}

impl Places {
    /// Of no record. It takes no memory.
    pub fn new(alloc: Global) -> Places
        ensures { result ≡ [] }
    {
        Places {
            ends: Vec::new(alloc),
        }
    }

    /// Where the last record ends, or 0.
    fn end(&self) -> u64
        ensures { result ≡ last_end self.now }
    {
        match self.ends.last() {
            Some(end) => *end,
            None => 0,
        }
    }

    /// Takes the size of the next record. The error is of memory, and then nothing is changed.
    pub fn push(&mut self, size: usize) -> Result<(), AllocError>
        requires size { size ≤ 526954 }
        requires few { length self.old < 4000000000 }
        ensures pushed { OnOk result (self.new ≡ self.old ++ (last_end self.old + size) ∷ []) }
        ensures unchanged { OnErr result (self.new ≡ self.old) }
    {
        let end = self.end() + size as u64;
        self.ends.push(end)?;
        Ok(())
    }

    /// Where the record of a number begins and ends. None where there is none, as of 0.
    pub fn span(&self, number: u32) -> Option<(u64, u64)>
        ensures value { result ≡ span_at self.now number }
        ensures limits { IfSome result (λ s. s.1 < 2 ^ 64) }
    {
        if number == 0 {
            return None;
        }
        let place = number as usize - 1;
        let end = *self.ends.get(place)?;
        if place == 0 {
            return Some((0, end));
        }
        Some((self.ends[place - 1], end))
    }
}
