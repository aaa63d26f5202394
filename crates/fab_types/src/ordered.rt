//! Items that stand in the order of their bytes, each once.

ghost use Rattle.std.specs.Prelude.{◌≡◌, ℕ, List, map};
ghost use Rattle.fab_types.specs.Order.{are_ascending, is_before};

use crate::items::{RangeEntry, ReadItem, WriteItem};
use crate::membership::Member;

/// An item that has a place among others by its key or its name.
pub trait Ordered {
    /// The bytes of its key or its name.
    ghost place_of: { Self → List ℕ };

    /// Whether it stands before another.
    fn is_before(&self, other: &Self) -> bool
        ensures { result ≡ is_before (place_of self.now) (place_of other.now) };
}

impl Ordered for ReadItem {
    ghost place_of = { λ i. i.key };

    fn is_before(&self, other: &ReadItem) -> bool {
        self.key < other.key
    }
}

impl Ordered for RangeEntry {
    ghost place_of = { λ e. e.key };

    fn is_before(&self, other: &RangeEntry) -> bool {
        self.key < other.key
    }
}

impl Ordered for WriteItem {
    ghost place_of = { λ i. i.key };

    fn is_before(&self, other: &WriteItem) -> bool {
        self.key < other.key
    }
}

impl Ordered for Member {
    ghost place_of = { λ m. m.name };

    fn is_before(&self, other: &Member) -> bool {
        self.name.is_before(&other.name)
    }
}

/// Whether the items are strictly ascending.
pub fn are_ascending<T: Ordered>(items: &[T]) -> bool
    ensures { result ≡ are_ascending (map T.place_of items.now) }
{
    match items {
        [] => true,
        [_] => true,
        [first, rest @ ..] => first.is_before(&rest[0]) && are_ascending(rest),
    }
}
