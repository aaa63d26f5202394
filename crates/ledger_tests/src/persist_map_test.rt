//! Pages of large maps, older maps after changes, and ranges over the ends of pages.

use persist_map::PMap;
use std::alloc::{AllocError, Global};
use std::test::Fail;

/// Keys from 0 on, in ascending order, each with itself.
fn ascending(alloc: Global, count: u32) -> Result<PMap<u32, u32>, AllocError> {
    let mut map = PMap::new(alloc);
    for key in 0..count {
        map.put(key, key)?;
    }
    Ok(map)
}

fn is_at(map: &PMap<u32, u32>, key: u32, value: Option<u32>) -> bool {
    map.get(&key).copied() == value
}

/// Whether each key from 0 on is found with itself, by at most so many comparisons.
fn finds_all(map: &PMap<u32, u32>, count: u32, most: u32) -> bool {
    for key in 0..count {
        let (value, asked) = map.get_counted(&key);
        if value.copied() != Some(key) || asked > most {
            return false;
        }
    }
    true
}

/// Whether 10,000 ascending keys make 312 pages, and each is found by 16 comparisons: 312 has nine
/// binary digits.
fn are_in_pages(map: &PMap<u32, u32>) -> bool {
    map.pages() == 312 && is_at(map, 10_000, None) && finds_all(map, 10_000, 16)
}

/// Whether a map of two pages has one without the entries of the first.
fn leaves_a_page(map: &mut PMap<u32, u32>) -> bool {
    let mut are_deleted = true;
    for key in 0..32 {
        are_deleted &= map.delete(&key).is_ok();
    }
    are_deleted && map.pages() == 1 && is_at(map, 31, None) && is_at(map, 32, Some(32))
}

/// Whether this is the value at 7, and 8 is there or not.
fn has(map: &PMap<u32, u32>, at_7: u32, at_8: Option<u32>) -> bool {
    is_at(map, 7, Some(at_7)) && is_at(map, 8, at_8)
}

/// Whether a map answers as before where another was made of it.
fn stays_where_one_is_put(old: &PMap<u32, u32>) -> Result<bool, AllocError> {
    let other = old.insert(7, 70)?;
    Ok(has(old, 7, Some(8)) && has(&other, 70, Some(8)))
}

fn stays_where_one_is_removed(old: &PMap<u32, u32>) -> Result<bool, AllocError> {
    let less = old.remove(&8)?;
    Ok(has(old, 7, Some(8)) && has(&less, 7, None))
}

/// Whether a map is changed.
fn is_changed(map: &mut PMap<u32, u32>) -> bool {
    map.put(7, 70).is_ok() && map.put(7, 71).is_ok() && map.delete(&8).is_ok() && has(map, 71, None)
}

/// Whether a copy answers as before where the map is changed.
fn stays_in_a_copy(map: &mut PMap<u32, u32>) -> Result<bool, AllocError> {
    let copy = map.clone()?;
    Ok(is_changed(map) && has(&copy, 7, Some(8)))
}

/// Whether the keys of entries are those from a first one on, so many.
fn are_from(entries: &[(&u32, &u32)], first: u32, count: usize) -> bool {
    let mut key = first;
    for entry in entries {
        if *entry.0 != key {
            return false;
        }
        key = key.wrapping_add(1);
    }
    entries.len() == count
}

/// Whether a range of at most 64 entries begins with this key and has so many.
fn is_range(map: &PMap<u32, u32>, start: u32, end: u32, count: usize) -> Result<bool, AllocError> {
    let entries = map.first_from(Some(&start), Some(&end), 64)?;
    Ok(are_from(&entries, start, count))
}

/// Whether ranges of a map of 200 keys go on past a page, have at most as many entries as are asked
/// for, and end before their ends, and the one without bounds has all keys.
fn are_ranges(map: &PMap<u32, u32>) -> Result<bool, AllocError> {
    let is_cut = is_range(map, 30, 100, 64)?;
    let is_ended = is_range(map, 30, 90, 60)?;
    let is_empty = is_range(map, 50, 50, 0)?;
    let is_crossed = is_range(map, 150, 50, 0)?;
    let are_all = are_from(&map.first_from(None, None, 201)?, 0, 200);
    Ok(is_cut && is_ended && is_empty && is_crossed && are_all)
}

/// What is seen of a large map, of one of two pages, and of one of 200 keys.
fn seen(alloc: Global) -> Result<bool, AllocError> {
    let are_in_pages = are_in_pages(&ascending(alloc, 10_000)?);
    let leaves_a_page = leaves_a_page(&mut ascending(alloc, 65)?);
    Ok(are_in_pages && leaves_a_page && is_kept(&mut ascending(alloc, 200)?))
}

/// Whether a map of 200 keys has its ranges, and older maps answer as before.
fn is_kept(map: &mut PMap<u32, u32>) -> bool {
    are_ranges(map) == Ok(true)
        && stays_where_one_is_put(map) == Ok(true)
        && stays_where_one_is_removed(map) == Ok(true)
        && stays_in_a_copy(map) == Ok(true)
}

#[test]
fn maps_are_in_pages_and_kept(rt: HostRuntime) -> Result<(), Fail> {
    let seen = seen(rt.alloc())?;
    assert!(rt; seen);
    Ok(())
}
