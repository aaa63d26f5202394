//! The entries between two keys.

ghost use Rattle.std.specs.Prelude.{◌≡◌, ◌++◌, length};
ghost use Rattle.std.specs.Iterator.{at_most};
ghost use Rattle.std.specs.List.{filter};
ghost use Rattle.std.specs.List.Sorted.{IsStrictlySortedBy};
ghost use Rattle.std.specs.Map.{keys_of};
ghost use Rattle.std.specs.Map.Iter.{TakesFirst, deref_pair};
ghost use Rattle.std.specs.Option.{option_map};
ghost use Rattle.persist_map.specs.Entries.{is_from, is_before, between};
ghost use Rattle.persist_map.specs.Pages.{shared, pages_of, joined, AreLaid};
ghost use Rattle.persist_map.specs.Changes.{at_of};

use crate::search::{Page, find, find_in};
use std::marker::Model;
use std::mem;
use std::sync::Arc;

/// The entries of a range that are left, in key order.
#[derive(Drop)]
pub struct Range<'a, K, V> {
    front: &'a [Arc<(K, V)>],
    middle: &'a [Arc<Page<K, V>>],
    back: &'a [Arc<(K, V)>],
}

impl<'a, K, V> Model for Range<'a, K, V> {
    ghost use Rattle.std.specs.Prelude.{List, ◌++◌};
    ghost use Rattle.std.specs.List.{AllByRecursion};
    ghost use Rattle.persist_map.specs.Pages.{shared, pages_of, joined, IsPage};

    ghost Value = { List (K × V) };

    ghost view = { λ r. shared r.front.now ++
        (joined (pages_of r.middle.now) ++ shared r.back.now) };

    ghost invariant = { λ r. AllByRecursion IsPage (pages_of r.middle.now) };
}

impl<'a, K, V> Iterator for Range<'a, K, V> {
    type Item = (&'a K, &'a V);

    ghost next_gives = { TakesFirst deref_pair };

    ghost remaining = { λ s. at_most (length s) };

    fn next(&mut self) -> Option<(&'a K, &'a V)> {
        if self.front.is_empty() {
            match self.middle {
                [page, rest @ ..] => {
                    self.front = page.as_slice();
                    self.middle = rest;
                }
                [] => mem::swap(&mut self.front, &mut self.back),
            }
        }
        match self.front {
            [entry, rest @ ..] => {
                self.front = rest;
                let entry: &(K, V) = entry;
                Some((&entry.0, &entry.1))
            }
            [] => None,
        }
    }
}

/// How many entries are before a place.
fn begin_of(place: Result<usize, usize>) -> usize
    ensures { result ≡ at_of place }
{
    match place {
        Ok(at) => at,
        Err(at) => at,
    }
}

/// The entries from a start on: some of a page, and later pages.
fn starting<'a, K: Ord, V>(
    pages: &'a [Arc<Page<K, V>>],
    start: Option<&K>,
) -> (&'a [Arc<(K, V)>], &'a [Arc<Page<K, V>>])
    requires { AreLaid K.cmp (pages_of pages.now) }
    ensures entries { shared result.0.now ++ joined (pages_of result.1.now)
        ≡ filter (λ e. is_from K.cmp (option_map (λ k. k.now) start.entry) e.0)
        (joined (pages_of pages.now)) }
    ensures front { IsStrictlySortedBy K.cmp (keys_of (shared result.0.now)) }
    ensures rest { AreLaid K.cmp (pages_of result.1.now) }
{
    let Some(start) = start else {
        return (&[], pages);
    };
    if pages.is_empty() {
        return (&[], pages);
    }
    let sought = find(pages, start);
    let at = begin_of(sought.place);
    let page: &Page<K, V> = &pages[sought.page];
    (&page[at..], &pages[sought.page + 1..])
}

/// Those of the entries that are before an end.
fn ending<'a, K: Ord, V>(
    front: &'a [Arc<(K, V)>],
    rest: &'a [Arc<Page<K, V>>],
    end: Option<&K>,
) -> Range<'a, K, V>
    requires front { IsStrictlySortedBy K.cmp (keys_of (shared front.now)) }
    requires rest { AreLaid K.cmp (pages_of rest.now) }
    ensures { result
        ≡ filter (λ e. is_before K.cmp (option_map (λ k. k.now) end.entry) e.0)
        (shared front.now ++ joined (pages_of rest.now)) }
{
    let none = &front[..0];
    let Some(end) = end else {
        return Range {
            front,
            middle: rest,
            back: none,
        };
    };
    let (place, _) = find_in(front, end);
    let front = &front[..begin_of(place)];
    if rest.is_empty() {
        return Range {
            front,
            middle: rest,
            back: none,
        };
    }
    let sought = find(rest, end);
    let page: &Page<K, V> = &rest[sought.page];
    Range {
        front,
        middle: &rest[..sought.page],
        back: &page[..begin_of(sought.place)],
    }
}

/// The entries of pages from a start on and before an end.
pub fn range_in<'a, K: Ord, V>(
    pages: &'a [Arc<Page<K, V>>],
    start: Option<&K>,
    end: Option<&K>,
) -> Range<'a, K, V>
    requires { AreLaid K.cmp (pages_of pages.now) }
    ensures { result
        ≡ between K.cmp (option_map (λ k. k.now) start.entry) (option_map (λ k. k.now) end.entry)
        (joined (pages_of pages.now)) }
{
    let (front, rest) = starting(pages, start);
    ending(front, rest, end)
}
