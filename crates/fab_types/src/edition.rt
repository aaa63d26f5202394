//! The editions of the rules.

ghost use Rattle.std.specs.Prelude.{◌≡◌, ◌≤◌};
ghost use Rattle.fab_types.specs.Editions.{edition_number, edition_of, last_block};

use crate::limits::{LAST_BLOCK, LAST_BLOCK_OF_FIRST};

/// The edition of the rules that a ledger is under. Its genesis file names it, and it stays.
#[derive(Clone, Copy, PartialEq, Eq, Debug)]
pub enum Edition {
    /// Rules 1: those of a ledger whose genesis file names none.
    First = 1,
    /// Rules 2.
    Second = 2,
}

impl Edition {
    /// The edition of this number. None unless it is 1 or 2.
    pub fn from_number(number: u32) -> Option<Edition>
        ensures { result ≡ edition_of number }
    {
        match number {
            1 => Some(Edition::First),
            2 => Some(Edition::Second),
            _ => None,
        }
    }

    /// The number by which a genesis file names it, 1 or 2.
    pub fn number(self) -> u32
        ensures { result ≡ edition_number self }
    {
        self as u32
    }

    /// The number of the last block that a ledger may have: 65,535 or 4,000,000,000.
    pub fn last_block(self) -> u32
        ensures value { result ≡ last_block self }
        ensures limits { result ≤ LAST_BLOCK }
    {
        match self {
            Edition::First => LAST_BLOCK_OF_FIRST,
            Edition::Second => LAST_BLOCK,
        }
    }
}
