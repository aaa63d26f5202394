//! What a transaction wrote to a key.

ghost use Rattle.std.specs.Prelude.{◌≡◌, option_map};
ghost use Rattle.ledger_model.specs.State.{write_to};

use fab_types::{Key, Value, WriteItem};

/// What these items write to a key: a value, or none where they delete it.
pub(crate) fn written_to<'a>(writes: &'a [WriteItem], key: &Key) -> Option<&'a Option<Value>>
    ensures { option_map (λ v. v.now) result ≡ write_to writes.now key.now }
{
    match writes {
        [] => None,
        [first, rest @ ..] => {
            if let Some(value) = written_to(rest, key) {
                return Some(value);
            }
            if key.as_slice().cmp(first.key.as_slice()).is_eq() {
                Some(&first.value)
            } else {
                None
            }
        }
    }
}
