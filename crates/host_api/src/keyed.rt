//! Items in key order.

ghost use Rattle.std.specs.Prelude.{◌≡◌, map, true};
ghost use Rattle.fab_types.specs.Order.{are_ascending};
ghost use Rattle.host_api.specs.Places.{place_of, found_at};

use fab_types::Keyed;

/// The place of the item with these bytes as its key, or else the place where one would stand, by
/// halving.
pub fn search<T: Keyed>(items: &[T], key: &[u8]) -> Result<usize, usize>
    requires { are_ascending (map T.key_of items.now) ≡ true }
    ensures { result ≡ found_at T.key_of key.now items.now }
{
    let place = count_before(items, key);
    match items.get(place) {
        Some(item) if item.key().as_slice().cmp(key).is_eq() => Ok(place),
        _ => Err(place),
    }
}

/// How many of the first items have a key before these bytes.
fn count_before<T: Keyed>(items: &[T], key: &[u8]) -> usize
    requires { are_ascending (map T.key_of items.now) ≡ true }
    ensures { result ≡ place_of T.key_of key.now items.now }
{
    items.partition_point(|item| item.key().as_slice().cmp(key).is_lt())
}
