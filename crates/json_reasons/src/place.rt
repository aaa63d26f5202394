//! Where a value stands in an input, and the texts of an input that a sentence shows.

use crate::Words;
use serde_json::Value;
use std::alloc::Global;
use std::fmt::{self, Display, Formatter, Write};

/// Where a value stands: the list and the item of it, if any, and the field of that or of all.
/// What is not there is empty; the list is too where the input itself is the list.
#[derive(Clone, Copy)]
pub(crate) struct Place<'a> {
    list: &'static str,
    item: Option<(usize, &'a Value)>,
    field: &'static str,
}

impl<'a> Place<'a> {
    /// The place of what this field of the whole holds; of the whole where it is empty.
    pub(crate) fn of_field(field: &'static str) -> Place<'a> {
        Place {
            list: "",
            item: None,
            field,
        }
    }

    /// The place of an item of a list, from 0.
    pub(crate) fn of_item(list: &'static str, index: usize, value: &'a Value) -> Place<'a> {
        Place {
            list,
            item: Some((index, value)),
            field: "",
        }
    }

    /// The place of what this field of the value there holds.
    pub(crate) fn field(self, field: &'static str) -> Place<'a> {
        Place { field, ..self }
    }
}

/// The place with a colon, as `chaincodes[1] (assets).fuel: `, for a sentence that begins with it.
impl Display for Place<'_> {
    fn fmt<W: Write>(&self, f: &mut Formatter<W>) -> fmt::Result {
        let Place { list, item, field } = *self;
        match (item, field) {
            (None, _) if field.is_empty() => Ok(()),
            (None, _) => write!(f, "field \"{field}\": "),
            (Some((index, value)), _) => {
                let (open, name, close) = shown_name(value);
                let dot = if field.is_empty() { "" } else { "." };
                write!(f, "{list}[{index}]{open}{name}{close}{dot}{field}: ")
            }
        }
    }
}

/// The name that an object has, with what is around it, if the name is short and plain.
fn shown_name(value: &Value) -> (&'static str, &str, &'static str) {
    match text_of(value, "name") {
        Some(name) if !name.is_empty() && name.len() <= MOST_SHOWN && is_plain(name) => {
            (" (", name, ")")
        }
        _ => ("", "", ""),
    }
}

/// Whether a text is of letters, digits, `_` and `-` alone.
fn is_plain(text: &str) -> bool {
    text.bytes().all(|byte| byte.is_ascii_alphanumeric() || byte == b'_' || byte == b'-')
}

/// The text that a field of an object holds.
pub(crate) fn text_of<'a>(value: &'a Value, field: &'static str) -> Option<&'a str> {
    match value.get(field) {
        Some(Value::String(text)) => Some(text.as_str()),
        _ => None,
    }
}

/// The items of the list that a field of an object holds; none where it holds none.
pub(crate) fn items_of<'a>(value: &'a Value, list: &'static str) -> &'a [Value] {
    match value.get(list) {
        Some(Value::Array(items)) => items,
        _ => &[],
    }
}

/// How many letters of a text are shown at most.
const MOST_SHOWN: usize = 40;

/// The front of a text, as far as it is shown.
pub(crate) fn front(text: &str) -> &str {
    match text.char_indices().nth(MOST_SHOWN) {
        Some((end, _)) => text.get(..end).unwrap_or(text),
        None => text,
    }
}

/// These words with commas between.
pub(crate) fn listed(alloc: Global, words: &[&str]) -> Words {
    let mut list = String::new(alloc);
    for word in words {
        list.push_str(if list.is_empty() { "" } else { ", " })?;
        list.push_str(word)?;
    }
    Ok(list)
}
