//! Binary search in pages and in a page.

ghost use Rattle.std.specs.Prelude.{◌≡◌, ◌≤◌, ◌<◌, ◌+◌, ◌^◌, ℕ, length};
ghost use Rattle.std.specs.List.{AllByRecursion};
ghost use Rattle.persist_map.specs.Pages.{shared, pages_of, IsPage, AreLaid};
ghost use Rattle.persist_map.specs.Search.{IsWithinDigits, ReachesDigits, AreUpTo, IsFound, IsPlaceOf};

use std::cmp::Ordering;
use std::sync::Arc;

/// Shared entries, in key order.
pub type Page<K, V> = Vec<Arc<(K, V)>>;

/// How many of the first pages begin at a key or before it, and the number of comparisons.
pub fn pages_up_to<K: Ord, V>(pages: &[Arc<Page<K, V>>], key: &K) -> (usize, u32)
    requires { AllByRecursion IsPage (pages_of pages.now) }
    ensures place { AreUpTo K.cmp key.now (pages_of pages.now) result.0 }
    ensures at_least { ReachesDigits (length pages.now) result.1 }
    ensures at_most { IsWithinDigits (length pages.now) result.1 }
    ensures small { result.1 ≤ 64 }
{
    let mut low: usize = 0;
    let mut high: usize = pages.len();
    let mut asked: u32 = 0;
    while low < high {
        let middle = low + (high - low) / 2;
        let page: &Page<K, V> = &pages[middle];
        asked += 1;
        if key.cmp(&page[0].0).is_lt() {
            high = middle;
        } else {
            low = middle + 1;
        }
    }
    (low, asked)
}

/// The place of a key's entry, or else where it would stand, and the number of comparisons.
pub fn find_in<K: Ord, V>(page: &[Arc<(K, V)>], key: &K) -> (Result<usize, usize>, u32)
    ensures place { IsFound K.cmp key.now (shared page.now) result.0 }
    ensures count { IsWithinDigits (length page.now) result.1 }
{
    let mut low: usize = 0;
    let mut high: usize = page.len();
    let mut asked: u32 = 0;
    while low < high {
        let middle = low + (high - low) / 2;
        asked += 1;
        match key.cmp(&page[middle].0) {
            Ordering::Less => high = middle,
            Ordering::Equal => return (Ok(middle), asked),
            Ordering::Greater => low = middle + 1,
        }
    }
    (Err(low), asked)
}

/// A place in the pages of a map: of the entry of a key, or else where it would stand.
#[derive(Clone, Copy)]
pub struct Sought {
    pub page: usize,
    pub place: Result<usize, usize>,
    /// The number of comparisons.
    pub asked: u32,
}

/// The place of a key, and the number of comparisons.
pub fn find<K: Ord, V>(pages: &[Arc<Page<K, V>>], key: &K) -> Sought
    requires { AreLaid K.cmp (pages_of pages.now) }
    ensures place { IsPlaceOf K.cmp key.now (pages_of pages.now) result.page result.place }
    ensures at_least { ReachesDigits (length pages.now) result.asked }
    ensures at_most { (d : ℕ) → length pages.now < 2 ^ d → result.asked ≤ d + 7 }
{
    let (count, asked) = pages_up_to(pages, key);
    if count == 0 {
        return Sought {
            page: 0,
            place: Err(0),
            asked,
        };
    }
    let page = count - 1;
    let entries: &Page<K, V> = &pages[page];
    let (place, more) = find_in(entries, key);
    Sought {
        page,
        place,
        asked: asked + more,
    }
}
