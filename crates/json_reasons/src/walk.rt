//! The first fault of an input by the table of forms, and where it is.

use crate::Words;
use crate::fault::{Fault, fault_of, kind_of};
use crate::place::{Place, front};
use crate::tables::{Field, Form, Items, MODULES_FILE, Object, rows};
use json_genesis::GenesisRefusal;
use nearest_word::nearest;
use serde_json::{Map, Value};
use std::alloc::{AllocError, Global};

/// The fields of an object of an input.
type Fields = Map<String, Value>;

/// Names of fields.
type Names = Vec<&'static str>;

/// Whose form an object has: which object it is, and the word by which it asks.
#[derive(Clone, Copy)]
pub(crate) struct ObjectKind<'a>(pub Object, pub &'a str);

/// What is wrong at a place.
#[derive(Clone, Copy)]
pub(crate) struct Found<'a> {
    pub place: Place<'a>,
    pub wrong: Wrong<'a>,
}

/// What is wrong with a value, or an object whose fields are not those that it has to have.
#[derive(Clone, Copy)]
pub(crate) enum Wrong<'a> {
    Value(Fault),
    Fields(ObjectKind<'a>, &'a Fields),
}

/// A walk for the first fault of which a file gets this refusal; for any where there is none.
#[derive(Clone, Copy)]
pub(crate) struct Walk(pub Option<GenesisRefusal>);

impl Walk {
    /// The first fault of an object that is the whole input, and then of the items of its lists.
    pub(crate) fn whole<'a>(self, kind: ObjectKind<'a>, value: &'a Value) -> Option<Found<'a>> {
        let found = self.of_object(Place::of_field(""), kind, value);
        let (None, Value::Object(object)) = (found, value) else {
            return found;
        };
        for (name, form) in fields_of(kind, object) {
            if let Some(Value::Array(items)) = object.get(*name)
                && let Some(found) = self.of_items(name, *form, items)
            {
                return Some(found);
            }
        }
        None
    }

    /// The first fault of a modules file.
    pub(crate) fn modules_file(self, value: &Value) -> Option<Found<'_>> {
        let found = self.told(Place::of_field(""), fault_of(MODULES_FILE, value));
        match (found, value) {
            (None, Value::Array(items)) => self.of_items("", MODULES_FILE, items),
            _ => found,
        }
    }

    /// The first fault of the items of a list.
    fn of_items<'a>(self, list: &'static str, form: Form, items: &'a [Value]) -> Option<Found<'a>> {
        for (index, value) in items.iter().enumerate() {
            let place = Place::of_item(list, index, value);
            let found = match form {
                Form::List(_, _, Items::Texts) => self.told(place, fault_of(Form::Text, value)),
                Form::List(_, _, Items::Names) => self.told(place, fault_of(Form::OrgName, value)),
                Form::List(_, _, Items::Objects(object)) => {
                    self.of_object(place, ObjectKind(object, ""), value)
                }
                _ => None,
            };
            if found.is_some() {
                return found;
            }
        }
        None
    }

    /// The first fault of an object, without the items of its lists.
    fn of_object<'a>(
        self,
        at: Place<'a>,
        kind: ObjectKind<'a>,
        value: &'a Value,
    ) -> Option<Found<'a>> {
        let Value::Object(object) = value else {
            let fault = Fault::Kind(kind_of(value), "an object");
            return self.told(at, Some(fault));
        };
        let fields = fields_of(kind, object);
        if self.asks(GenesisRefusal::Field) && !has_these(fields, object) {
            return Some(Found {
                place: at,
                wrong: Wrong::Fields(kind, object),
            });
        }
        for (name, form) in fields {
            if let Some(value) = object.get(*name)
                && let Some(found) = self.told(at.field(name), fault_of(*form, value))
            {
                return Some(found);
            }
        }
        None
    }

    /// What is wrong with the value at a place, if that is looked for.
    fn told(self, place: Place<'_>, fault: Option<Fault>) -> Option<Found<'_>> {
        match fault {
            Some(fault) if self.asks(fault.refusal()) => Some(Found {
                place,
                wrong: Wrong::Value(fault),
            }),
            _ => None,
        }
    }

    /// Whether a fault is looked for, of which a file gets this refusal.
    fn asks(self, refusal: GenesisRefusal) -> bool {
        match self.0 {
            Some(asked) => asked == refusal,
            None => true,
        }
    }
}

/// The fields of the first of its forms that an object has, or was to have.
fn fields_of(kind: ObjectKind<'_>, object: &Fields) -> &'static [Field] {
    let ObjectKind(wanted, asked) = kind;
    for (whose, word, by, fields) in rows() {
        let is_known = by.is_empty() || object.contains_key(*by);
        if is_known && *whose == wanted && *word == asked {
            return fields;
        }
    }
    &[]
}

/// Whether an object has these fields and no others.
fn has_these(fields: &[Field], object: &Fields) -> bool {
    object.len() == fields.len() && fields.iter().all(|(name, _)| object.contains_key(*name))
}

/// What was found, in words.
pub(crate) fn words_of(alloc: Global, found: Found<'_>) -> Words {
    let place = found.place;
    match found.wrong {
        Wrong::Value(fault) => format!(in alloc; "{place}{fault}"),
        Wrong::Fields(kind, object) => {
            let words = fields_words(alloc, kind, object)?;
            format!(in alloc; "{place}{words}")
        }
    }
}

/// The first field of an object that is none of its form's and was meant for one that it may have,
/// or else the first that is none of these, and the first that it lacks, in words.
fn fields_words(alloc: Global, kind: ObjectKind<'_>, object: &Fields) -> Words {
    let fields = fields_of(kind, object);
    let lacked = lacked(alloc, object, fields)?;
    let first = lacked.first().copied();
    let possible = with_others(lacked, kind, object)?;
    let mut stray = None;
    for (name, _) in object.iter() {
        if fields.iter().any(|(known, _)| *known == name.as_str()) {
            continue;
        }
        let shown = front(name.as_str());
        if let Some(meant) = nearest(alloc, name.as_str(), &possible)? {
            return format!(in alloc; "unknown field {shown:?}; did you mean \"{meant}\"?");
        }
        stray = stray.or(Some(shown));
    }
    match (stray, first) {
        (Some(shown), None) => format!(in alloc; "unknown field {shown:?}; it has to go"),
        (Some(shown), Some(name)) => {
            format!(in alloc; "unknown field {shown:?}, and field \"{name}\" is missing")
        }
        (None, Some(name)) => format!(in alloc; "field \"{name}\" is missing"),
        (None, None) => Ok(String::new(alloc)),
    }
}

/// Those of these fields that an object lacks.
fn lacked(alloc: Global, object: &Fields, fields: &'static [Field]) -> Result<Names, AllocError> {
    let mut names = Vec::new(alloc);
    for (name, _) in fields {
        if !object.contains_key(*name) {
            names.push(*name)?;
        }
    }
    Ok(names)
}

/// These names, and behind them the fields that an object lacks by which its other forms are known.
fn with_others(
    mut names: Names,
    kind: ObjectKind<'_>,
    object: &Fields,
) -> Result<Names, AllocError> {
    let ObjectKind(wanted, asked) = kind;
    for (whose, word, by, _) in rows() {
        let is_its = *whose == wanted && *word == asked && !by.is_empty();
        if is_its && !object.contains_key(*by) {
            names.push(*by)?;
        }
    }
    Ok(names)
}
