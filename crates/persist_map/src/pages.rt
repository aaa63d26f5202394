//! Changes of one page among others.

ghost use Rattle.std.specs.Prelude.{◌≡◌, ◌≤◌, ◌<◌, ◌+◌, [], ◌∷◌, ◌++◌, IsTrue, IsFalse, length, take, drop, IfOk, OnOk, OnErr, vec_len};
ghost use Rattle.persist_map.specs.Entries.{put, without};
ghost use Rattle.persist_map.specs.Pages.{shared, pages_of, joined, page_at, AreLaid};
ghost use Rattle.persist_map.specs.Changes.{at_of, next_of, placed, cut, halves, replaced};

use crate::search::{Page, find};
use std::alloc::{AllocError, Global};
use std::sync::Arc;

/// How many entries a page has at most, and how many its first half keeps when it is split.
const PAGE: usize = 64;

const HALF: usize = 32;

/// Puts an entry at its place of a page that is not shared.
fn place_in<K: Drop, V: Drop>(
    page: &mut Page<K, V>,
    place: Result<usize, usize>,
    entry: Arc<(K, V)>,
) -> Result<(), AllocError>
    requires { next_of place ≤ vec_len page.old }
    ensures ok { OnOk result
        (shared page.new.items ≡ placed (shared page.old.items) place entry.value) }
    ensures err { OnErr result (page.new.items ≡ page.old.items) }
{
    match place {
        Ok(at) => page[at] = entry,
        Err(at) => page.insert(at, entry)?,
    }
    Ok(())
}

/// Puts an entry at its place of a page, or of a copy where another map has the page too.
fn place_in_shared<K: Drop, V: Drop>(
    alloc: Global,
    page: &mut Arc<Page<K, V>>,
    place: Result<usize, usize>,
    entry: Arc<(K, V)>,
) -> Result<(), AllocError>
    requires at { at_of place ≤ vec_len page.old.value }
    requires next { next_of place ≤ vec_len page.old.value }
    requires size { vec_len page.old.value ≤ 64 }
    ensures ok { OnOk result
        (shared page.new.value.items ≡ placed (shared page.old.value.items) place entry.value) }
    ensures err { OnErr result (shared page.new.value.items ≡ shared page.old.value.items) }
{
    match Arc::get_mut(page) {
        Some(own) => place_in(own, place, entry),
        None => {
            let old: &Page<K, V> = &*page;
            let copy = with_entry(alloc, old, place, entry)?;
            *page = Arc::new(alloc, copy)?;
            Ok(())
        }
    }
}

/// Takes an entry out of a page, which is copied where another map has it too.
fn cut_from_shared<K: Drop, V: Drop>(
    page: &mut Arc<Page<K, V>>,
    at: usize,
) -> Result<(), AllocError>
    requires { at < vec_len page.old.value }
    ensures ok { OnOk result (shared page.new.value.items ≡ cut (shared page.old.value.items) at) }
    ensures err { OnErr result (shared page.new.value.items ≡ shared page.old.value.items) }
{
    let page = Arc::make_mut(page)?;
    page.remove(at);
    Ok(())
}

/// Puts an entry at its place of one of the pages.
fn set_entry<K: Drop, V: Drop>(
    alloc: Global,
    pages: &mut Vec<Arc<Page<K, V>>>,
    page: usize,
    place: Result<usize, usize>,
    entry: Arc<(K, V)>,
) -> Result<(), AllocError>
    requires page { page < vec_len pages.old }
    requires at { at_of place ≤ length (page_at (pages_of pages.old.items) page) }
    requires next { next_of place ≤ length (page_at (pages_of pages.old.items) page) }
    requires size { length (page_at (pages_of pages.old.items) page) ≤ 64 }
    ensures ok { OnOk result
        (pages_of pages.new.items
        ≡ replaced (pages_of pages.old.items) page
        (placed (page_at (pages_of pages.old.items) page) place entry.value ∷ [])) }
    ensures err { OnErr result (pages_of pages.new.items ≡ pages_of pages.old.items) }
{
    place_in_shared(alloc, &mut pages[page], place, entry)
}

/// Takes an entry out of one of the pages.
fn cut_entry<K: Drop, V: Drop>(
    pages: &mut Vec<Arc<Page<K, V>>>,
    page: usize,
    at: usize,
) -> Result<(), AllocError>
    requires page { page < vec_len pages.old }
    requires place { at < length (page_at (pages_of pages.old.items) page) }
    ensures ok { OnOk result
        (pages_of pages.new.items
        ≡ replaced (pages_of pages.old.items) page
        (cut (page_at (pages_of pages.old.items) page) at ∷ [])) }
    ensures err { OnErr result (pages_of pages.new.items ≡ pages_of pages.old.items) }
{
    cut_from_shared(&mut pages[page], at)
}

/// How many of a page's entries stay before the entry of a key, and from which on they stay after
/// it.
fn ends(place: Result<usize, usize>) -> (usize, usize)
    requires { next_of place ≤ 64 }
    ensures at { result.0 ≡ at_of place }
    ensures next { result.1 ≡ next_of place }
{
    match place {
        Ok(at) => (at, at + 1),
        Err(at) => (at, at),
    }
}

/// A page's entries with an entry at its place.
fn with_entry<K: Drop, V: Drop>(
    alloc: Global,
    page: &[Arc<(K, V)>],
    place: Result<usize, usize>,
    entry: Arc<(K, V)>,
) -> Result<Page<K, V>, AllocError>
    requires at { at_of place ≤ length page.now }
    requires next { next_of place ≤ length page.now }
    requires size { length page.now ≤ 64 }
    ensures { IfOk result (λ v. shared v.items ≡ placed (shared page.now) place entry.value) }
{
    let (at, next) = ends(place);
    let mut new = Vec::with_capacity(alloc, page.len() + 1)?;
    new.extend_with_clones(&page[..at])?;
    new.push(entry)?;
    new.extend_with_clones(&page[next..])?;
    Ok(new)
}

/// Puts two pages in place of one.
fn set_pages<K: Drop, V: Drop>(
    alloc: Global,
    pages: &mut Vec<Arc<Page<K, V>>>,
    page: usize,
    first: Page<K, V>,
    rest: Page<K, V>,
) -> Result<(), AllocError>
    requires { page < vec_len pages.old }
    ensures ok { OnOk result
        (pages_of pages.new.items
        ≡ replaced (pages_of pages.old.items) page
        (shared first.items ∷ shared rest.items ∷ [])) }
    ensures err { OnErr result (pages.new.items ≡ pages.old.items) }
{
    let first = Arc::new(alloc, first)?;
    let rest = Arc::new(alloc, rest)?;
    pages.insert(page + 1, rest)?;
    pages[page] = first;
    Ok(())
}

/// Puts an entry into a page that has no room for it: its first half and the rest take its place.
fn split_page<K: Drop, V: Drop>(
    alloc: Global,
    pages: &mut Vec<Arc<Page<K, V>>>,
    page: usize,
    place: Result<usize, usize>,
    entry: Arc<(K, V)>,
) -> Result<(), AllocError>
    requires page { page < vec_len pages.old }
    requires at { at_of place ≤ length (page_at (pages_of pages.old.items) page) }
    requires next { next_of place ≤ length (page_at (pages_of pages.old.items) page) }
    requires size { length (page_at (pages_of pages.old.items) page) ≤ 64 }
    requires full { 64 + next_of place
        ≤ length (page_at (pages_of pages.old.items) page) + at_of place }
    ensures ok { OnOk result
        (pages_of pages.new.items
        ≡ replaced (pages_of pages.old.items) page
        (halves (placed (page_at (pages_of pages.old.items) page) place entry.value))) }
    ensures err { OnErr result (pages.new.items ≡ pages.old.items) }
{
    let old: &Page<K, V> = &pages[page];
    let mut first = with_entry(alloc, old, place, entry)?;
    let rest = first.split_off(HALF)?;
    set_pages(alloc, pages, page, first, rest)
}

/// Whether a page has no room for an entry at a place: all places are taken, and none of them is
/// its own.
fn is_full<K, V>(page: &[Arc<(K, V)>], place: Result<usize, usize>) -> bool
    requires { length page.now ≤ 64 }
    ensures full { IsTrue result → 64 + next_of place ≤ length page.now + at_of place }
    ensures room { IsFalse result → length page.now + at_of place < 64 + next_of place }
{
    match place {
        Ok(_) => false,
        Err(_) => page.len() == PAGE,
    }
}

/// Puts a first page, of one entry.
fn put_first<K: Drop, V: Drop>(
    alloc: Global,
    pages: &mut Vec<Arc<Page<K, V>>>,
    entry: Arc<(K, V)>,
) -> Result<(), AllocError>
    requires { vec_len pages.old ≡ 0 }
    ensures ok { OnOk result (pages_of pages.new.items ≡ (entry.value ∷ []) ∷ []) }
    ensures err { OnErr result (pages.new.items ≡ pages.old.items) }
{
    let mut page = Vec::with_capacity(alloc, 1)?;
    page.push(entry)?;
    pages.push(Arc::new(alloc, page)?)?;
    Ok(())
}

/// Puts an entry in its place. Where memory is refused, the pages stay.
pub fn put_in<K: Ord + Drop, V: Drop>(
    alloc: Global,
    pages: &mut Vec<Arc<Page<K, V>>>,
    entry: Arc<(K, V)>,
) -> Result<(), AllocError>
    requires { AreLaid K.cmp (pages_of pages.old.items) }
    ensures laid { AreLaid K.cmp (pages_of pages.new.items) }
    ensures ok { OnOk result
        (joined (pages_of pages.new.items)
        ≡ put K.cmp (joined (pages_of pages.old.items)) entry.value.0 entry.value.1) }
    ensures err { OnErr result (pages_of pages.new.items ≡ pages_of pages.old.items) }
{
    if pages.is_empty() {
        return put_first(alloc, pages, entry);
    }
    let sought = find(pages, &entry.0);
    let page: &Page<K, V> = &pages[sought.page];
    if is_full(page, sought.place) {
        return split_page(alloc, pages, sought.page, sought.place, entry);
    }
    set_entry(alloc, pages, sought.page, sought.place, entry)
}

/// Whether a page has one entry alone.
fn is_single<K, V>(page: &[Arc<(K, V)>]) -> bool
    ensures single { IsTrue result → length page.now ≡ 1 }
    ensures several { IsFalse result → 0 < length page.now → 1 < length page.now }
{
    page.len() == 1
}

/// Takes a key's entry out, and a page that it leaves empty. Where memory is refused, the pages
/// stay.
pub fn delete_in<K: Ord + Drop, V: Drop>(
    pages: &mut Vec<Arc<Page<K, V>>>,
    key: &K,
) -> Result<(), AllocError>
    requires { AreLaid K.cmp (pages_of pages.old.items) }
    ensures laid { AreLaid K.cmp (pages_of pages.new.items) }
    ensures ok { OnOk result
        (joined (pages_of pages.new.items)
        ≡ without K.cmp (joined (pages_of pages.old.items)) key.now) }
    ensures err { OnErr result (pages_of pages.new.items ≡ pages_of pages.old.items) }
{
    let sought = find(pages, key);
    let Ok(at) = sought.place else {
        return Ok(());
    };
    if is_single(&pages[sought.page]) {
        pages.remove(sought.page);
        return Ok(());
    }
    cut_entry(pages, sought.page, at)
}
