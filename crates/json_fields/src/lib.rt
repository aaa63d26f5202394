//! JSON objects with exactly the fields that are asked for, and what their fields hold.
//!
//! `serde_json` keeps an object's fields in the byte order of their names, each name once: of a
//! name that stands twice in the text the last value counts. So the fields of an object are taken
//! in the order of their names, and `is_end` tells that none is left over. A number is read only
//! where it is written in digits alone: `4.0`, `-4` and whatever is not below 2^64 are none.
#![tactic(auto)]

ghost use Rattle.std.specs.Prelude.{◌≡◌, ◌≢◌, ◌↔◌, ℕ, List, Bool, true, MatchOption, MatchBool};
ghost use Rattle.serde_json.specs.Data.{Data, Items, Members, string, boolean, number, unsigned, array, object, member, no_members};
ghost use Rattle.serde_json.specs.View.{view, items_view, members_view};
ghost use Rattle.json_fields.specs.NamedKeys.{public_object};

use serde_json::Value;
use std::collections::btree_map::Iter;

/// The fields of an object that were not taken yet, in the order of their names.
pub type Fields<'a> = Iter<'a, String, Value>;

/// The fields of an object, all of them still to be taken. None where the value is no object.
pub fn fields(value: &Value) -> Option<Fields<'_>>
    ensures { MatchOption result ((ms : Members) → view value.now ≢ object ms)
        (λ fields. view value.now ≡ object (members_view fields)) }
{
    match value {
        Value::Object(map) => Some(map.iter()),
        _ => None,
    }
}

/// Takes the first field that is left, which has this name, and gives its value. None where it has
/// another name or no field is left; what is left after that is not said.
pub fn take<'a>(fields: &mut Fields<'a>, name: &str) -> Option<&'a Value>
    ensures { MatchOption result
        ((d : Data) (rest : Members) → members_view fields.old ≢ member name.now d rest)
        (λ v. members_view fields.old ≡ member name.now (view v.now) (members_view fields.new)) }
{
    let (key, value) = fields.next()?;
    if key.as_str() == name {
        Some(value)
    } else {
        None
    }
}

/// Takes the first field that is left, which has this name and holds a string, and gives the
/// string. None in every other case; what is left after that is not said.
pub fn take_text<'a>(fields: &mut Fields<'a>, name: &str) -> Option<&'a str>
    ensures { MatchOption result
        ((s : List ℕ) (rest : Members) → members_view fields.old ≢ member name.now (string s) rest)
        (λ s. members_view fields.old ≡ member name.now (string s.now) (members_view fields.new)) }
{
    text(take(fields, name)?)
}

/// Takes the first field that is left, which has this name and holds a whole number below 2^64, and
/// gives the number. None in every other case; what is left after that is not said.
pub fn take_number(fields: &mut Fields<'_>, name: &str) -> Option<u64>
    ensures { MatchOption result
        ((n : ℕ) (rest : Members) →
        members_view fields.old ≢ member name.now (number (unsigned n)) rest)
        (λ n. members_view fields.old
        ≡ member name.now (number (unsigned n)) (members_view fields.new)) }
{
    number(take(fields, name)?)
}

/// Takes the first field that is left, which has this name and holds a list, and gives its items.
/// None in every other case; what is left after that is not said.
pub fn take_list<'a>(fields: &mut Fields<'a>, name: &str) -> Option<&'a [Value]>
    ensures { MatchOption result
        ((ds : Items) (rest : Members) → members_view fields.old ≢ member name.now (array ds) rest)
        (λ vs. members_view fields.old
        ≡ member name.now (array (items_view vs.now)) (members_view fields.new)) }
{
    items(take(fields, name)?)
}

/// Takes the first field that is left, and tells whether it has this name and holds this string.
pub fn take_word(fields: &mut Fields<'_>, name: &str, word: &str) -> bool
    ensures { MatchBool result
        (members_view fields.old ≡ member name.now (string word.now) (members_view fields.new))
        ((rest : Members) → members_view fields.old ≢ member name.now (string word.now) rest) }
{
    match take_text(fields, name) {
        Some(text) => text == word,
        None => false,
    }
}

/// Whether no field is left. Where one is, what is left after that is not said.
pub fn is_end(fields: &mut Fields<'_>) -> bool
    ensures { result ≡ true ↔ members_view fields.old ≡ no_members }
{
    fields.next().is_none()
}

/// The string that a value is. None where it is of another kind.
pub fn text(value: &Value) -> Option<&str>
    ensures { MatchOption result ((s : List ℕ) → view value.now ≢ string s)
        (λ s. view value.now ≡ string s.now) }
{
    match value {
        Value::String(text) => Some(text.as_str()),
        _ => None,
    }
}

/// The whole number below 2^64 that a value is. None where it is another number or of another kind.
pub fn number(value: &Value) -> Option<u64>
    ensures { MatchOption result ((n : ℕ) → view value.now ≢ number (unsigned n))
        (λ n. view value.now ≡ number (unsigned n)) }
{
    value.as_u64()
}

/// The truth value that a value is. None where it is of another kind.
pub fn truth(value: &Value) -> Option<bool>
    ensures { MatchOption result ((b : Bool) → view value.now ≢ boolean b)
        (λ b. view value.now ≡ boolean b) }
{
    match value {
        Value::Bool(b) => Some(*b),
        _ => None,
    }
}

/// The items of the list that a value is, in order. None where it is of another kind.
pub fn items(value: &Value) -> Option<&[Value]>
    ensures { MatchOption result ((ds : Items) → view value.now ≢ array ds)
        (λ vs. view value.now ≡ array (items_view vs.now)) }
{
    match value {
        Value::Array(items) => Some(items),
        _ => None,
    }
}

/// What the fields of an organisation with a public key hold: the name, and the key in hex.
#[derive(Clone, Copy)]
pub struct PublicFields<'a> {
    pub name: &'a str,
    pub public: &'a str,
}

/// The fields of an organisation with a public key. None where the value is not an object of these
/// two texts alone.
pub fn public_fields(value: &Value) -> Option<PublicFields<'_>>
    ensures { MatchOption result
        ((name public : List ℕ) → view value.now ≢ public_object name public)
        (λ f. view value.now ≡ public_object f.name.now f.public.now) }
{
    let mut left = fields(value)?;
    let name = take_text(&mut left, "name")?;
    let public = take_text(&mut left, "public")?;
    if is_end(&mut left) {
        Some(PublicFields { name, public })
    } else {
        None
    }
}
