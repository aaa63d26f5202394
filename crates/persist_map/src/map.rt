//! The map.

ghost use Rattle.std.specs.Prelude.{◌≡◌, ◌≤◌, ◌<◌, ◌+◌, ◌*◌, ◌^◌, ℕ, [], length, map, take, IfOk, OnOk, OnErr, option_map};
ghost use Rattle.persist_map.specs.Entries.{get, put, without, between};
ghost use Rattle.std.specs.List.Sorted.{IsStrictlySortedBy};
ghost use Rattle.std.specs.Map.{keys_of};
ghost use Rattle.std.specs.Map.Iter.{deref_pair};

use crate::pages::{delete_in, put_in};
use crate::range::{Range, range_in};
use crate::search::{Page, find};
use std::alloc::{AllocError, Global};
use std::marker::Model;
use std::sync::Arc;

/// A value for each of some keys, in versions that share their parts.
#[derive(Drop)]
pub struct PMap<K: Ord, V> {
    pages: Vec<Arc<Page<K, V>>>,
}

impl<K: Ord, V> Model for PMap<K, V> {
    ghost use Rattle.persist_map.specs.Entries.{Paged, paged_code};
    ghost use Rattle.persist_map.specs.Pages.{paged, pages_of, AreLaid};

    ghost Value = { Paged K V };

    ghost coded = { paged_code K.code V.code };

    ghost view = { λ m. paged m.pages.items };

    ghost invariant = { λ m. AreLaid K.cmp (pages_of m.pages.items) };
}

impl<K: Ord + Drop, V: Drop> Clone for PMap<K, V> {
    ghost is_clone = { λ m n. n ≡ m };

    /// The same map. It costs as much as there are pages.
    fn clone(&self) -> Result<PMap<K, V>, AllocError> {
        Ok(PMap {
            pages: self.pages.clone()?,
        })
    }
}

impl<K: Ord, V> PMap<K, V> {
    /// A map of nothing. It takes no memory.
    pub fn new(alloc: Global) -> PMap<K, V>
        ensures empty { result.entries ≡ [] }
        ensures pages { result.pages ≡ 0 }
    {
        PMap {
            pages: Vec::new(alloc),
        }
    }

    /// How many pages there are, each of 1 to 64 entries.
    pub fn pages(&self) -> usize
        ensures value { result ≡ self.now.pages }
        ensures at_most { result ≤ length self.now.entries }
        ensures at_least { length self.now.entries ≤ 64 * result }
    {
        self.pages.len()
    }

    /// The value at a key, and the number of comparisons: at least one less than the number of
    /// pages has binary digits, and at most 7 more. It takes no memory.
    pub fn get_counted(&self, key: &K) -> (Option<&V>, u32)
        ensures value { option_map (λ v. v.now) result.0 ≡ get K.cmp self.now.entries key.now }
        ensures at_least { (d : ℕ) → 2 ^ d ≤ self.now.pages → d ≤ result.1 }
        ensures at_most { (d : ℕ) → self.now.pages < 2 ^ d → result.1 ≤ d + 7 }
    {
        let sought = find(&self.pages, key);
        let Ok(at) = sought.place else {
            return (None, sought.asked);
        };
        let page: &Page<K, V> = &self.pages[sought.page];
        let entry: &(K, V) = &page[at];
        (Some(&entry.1), sought.asked)
    }

    /// The value at a key. None where the key is absent. It takes no memory.
    pub fn get(&self, key: &K) -> Option<&V>
        ensures { option_map (λ v. v.now) result ≡ get K.cmp self.now.entries key.now }
    {
        self.get_counted(key).0
    }

    /// The entries from a start on and before an end, in key order. Without a start they are those
    /// from the first key on, without an end those up to the last. It takes no memory, and no more
    /// is visited than is asked for.
    pub fn range(&self, start: Option<&K>, end: Option<&K>) -> Range<'_, K, V>
        ensures all { result
            ≡ between K.cmp (option_map (λ k. k.now) start.entry)
            (option_map (λ k. k.now) end.entry) self.now.entries }
        ensures ordered { IsStrictlySortedBy K.cmp (keys_of self.now.entries) }
    {
        range_in(&self.pages, start, end)
    }

    /// The first `n` entries of a range, in key order. The bounds are as in `range`. The only error
    /// is want of memory.
    pub fn first_from(
        &self,
        start: Option<&K>,
        end: Option<&K>,
        n: usize,
    ) -> Result<Vec<(&K, &V)>, AllocError>
        ensures { IfOk result
            (λ v. map deref_pair v.items
            ≡ take n
            (between K.cmp (option_map (λ k. k.now) start.entry)
            (option_map (λ k. k.now) end.entry) self.now.entries)) }
    {
        let alloc = *self.pages.allocator();
        self.range(start, end).take(n).collect(alloc)
    }
}

impl<K: Ord + Drop, V: Drop> PMap<K, V> {
    /// Puts a value at a key, in place of the one that was there. Where memory is refused, the map
    /// stays.
    pub fn put(&mut self, key: K, value: V) -> Result<(), AllocError>
        ensures ok { OnOk result (self.new.entries ≡ put K.cmp self.old.entries key value) }
        ensures err { OnErr result (self.new ≡ self.old) }
    {
        let alloc = *self.pages.allocator();
        let entry = Arc::new(alloc, (key, value))?;
        put_in(alloc, &mut self.pages, entry)
    }

    /// Takes a key out, if it is there. Where memory is refused, the map stays.
    pub fn delete(&mut self, key: &K) -> Result<(), AllocError>
        ensures ok { OnOk result (self.new.entries ≡ without K.cmp self.old.entries key.now) }
        ensures ordered { IsStrictlySortedBy K.cmp (keys_of self.old.entries) }
        ensures err { OnErr result (self.new ≡ self.old) }
    {
        delete_in(&mut self.pages, key)
    }

    /// The map with a value at a key. This one stays as it is. The only error is want of memory.
    pub fn insert(&self, key: K, value: V) -> Result<PMap<K, V>, AllocError>
        ensures { IfOk result (λ m. m.entries ≡ put K.cmp self.now.entries key value) }
    {
        let mut map = self.clone()?;
        map.put(key, value)?;
        Ok(map)
    }

    /// The map without a key. This one stays as it is. The only error is want of memory.
    pub fn remove(&self, key: &K) -> Result<PMap<K, V>, AllocError>
        ensures { IfOk result (λ m. m.entries ≡ without K.cmp self.now.entries key.now) }
    {
        let mut map = self.clone()?;
        map.delete(key)?;
        Ok(map)
    }
}
