//! Why a file or a line is refused.

use crate::behind::{modules_words, names_words, out_of_order, policies_words, too_long};
use crate::fault::kind_of;
use crate::json_text::{Read, read_json};
use crate::place::{front, listed};
use crate::tables::{Object, rows};
use crate::walk::{ObjectKind, Walk, words_of};
use crate::{MaybeWords, Words};
use json_genesis::GenesisRefusal;
use ledger_table::meaning_of;
use nearest_word::nearest;
use serde_json::Value;
use std::alloc::{AllocError, Global};

/// Why a genesis file is refused: one sentence with the place, the reason and what is possible
/// there, which ends with the number of the refusal in parentheses. Where these bytes have no fault
/// of that number, it is what the number stands for.
pub fn genesis_reason(
    alloc: Global,
    bytes: &[u8],
    refusal: &GenesisRefusal,
) -> Result<String, AllocError> {
    let read = read_json(alloc, bytes, true)?;
    file_words(alloc, &read, *refusal, true)
}

/// Why a modules file is refused, in a sentence as of `genesis_reason`.
pub fn modules_reason(
    alloc: Global,
    bytes: &[u8],
    refusal: &GenesisRefusal,
) -> Result<String, AllocError> {
    let read = read_json(alloc, bytes, true)?;
    file_words(alloc, &read, *refusal, false)
}

/// Why a file is refused, which is a genesis file or one of modules.
fn file_words(alloc: Global, read: &Read, refusal: GenesisRefusal, is_genesis: bool) -> Words {
    let found = match read {
        Read::Json(file) => fault_in(alloc, file, refusal, is_genesis)?,
        Read::None(words) if refusal == GenesisRefusal::Json => Some(words.clone()?),
        Read::None(_) => None,
    };
    let number = refusal.number();
    match found {
        Some(words) => format!(in alloc; "{words} ({number})"),
        None => {
            let meaning = meaning_of(number);
            format!(in alloc; "{meaning} ({number})")
        }
    }
}

/// The first fault of a file for which it is refused so, in words.
fn fault_in(alloc: Global, file: &Value, refusal: GenesisRefusal, is_genesis: bool) -> MaybeWords {
    let walk = Walk(Some(refusal));
    let found = match refusal {
        GenesisRefusal::Module => return modules_words(alloc, file),
        GenesisRefusal::Policy => return policies_words(alloc, file),
        GenesisRefusal::Names => return names_words(alloc, file),
        _ if is_genesis => walk.whole(ObjectKind(Object::Genesis, ""), file),
        _ => walk.modules_file(file),
    };
    match found {
        Some(found) => words_of(alloc, found).map(Some),
        None => Ok(None),
    }
}

/// Why a line of an events file asks for nothing: one sentence with the field, the reason and what
/// is possible there.
pub fn event_reason(alloc: Global, line: &[u8]) -> Result<String, AllocError> {
    line_words(alloc, line, Object::Event, ("do", "action", "an event"))
}

/// Why a line is no proposal, in a sentence as of `event_reason`.
pub fn proposal_reason(alloc: Global, line: &[u8]) -> Result<String, AllocError> {
    line_words(alloc, line, Object::Proposal, ("", "", "a proposal"))
}

/// Why a line is no question, in a sentence as of `event_reason`.
pub fn question_reason(alloc: Global, line: &[u8]) -> Result<String, AllocError> {
    line_words(
        alloc,
        line,
        Object::Question,
        ("ask", "question", "a question"),
    )
}

/// The field with the word by which a line asks, which is empty where there is none, what the word
/// names, and what the line is.
type Names = (&'static str, &'static str, &'static str);

/// Why a line is no such object, in words.
fn line_words(alloc: Global, line: &[u8], wanted: Object, names: Names) -> Words {
    match read_json(alloc, line, false)? {
        Read::None(words) => Ok(words),
        Read::Json(value) => value_words(alloc, &value, wanted, names),
    }
}

/// The same of the value that a line is.
fn value_words(alloc: Global, value: &Value, wanted: Object, names: Names) -> Words {
    let (field, noun, line) = names;
    if field.is_empty() {
        return form_words(alloc, value, ObjectKind(wanted, ""), line);
    }
    match (value.get(field), value) {
        (Some(Value::String(word)), _) => {
            let word = word.as_str();
            if rows().iter().any(|row| row.0 == wanted && row.1 == word) {
                form_words(alloc, value, ObjectKind(wanted, word), line)
            } else {
                unknown_word(alloc, wanted, noun, word)
            }
        }
        (Some(held), _) => {
            let kind = kind_of(held);
            format!(in alloc; "field \"{field}\": it is {kind}, and has to be a text")
        }
        (None, Value::Object(_)) => format!(in alloc; "field \"{field}\" is missing"),
        _ => String::from_str(alloc, "it is no object: `{` has to come first"),
    }
}

/// That such a line does not ask by this word.
fn unknown_word(alloc: Global, wanted: Object, noun: &str, word: &str) -> Words {
    let mut known = Vec::new(alloc);
    let mut last = "";
    for (whose, each, _, _) in rows() {
        if *whose == wanted && *each != last {
            last = *each;
            known.push(last)?;
        }
    }
    let shown = front(word);
    if let Some(meant) = nearest(alloc, word, &known)? {
        return format!(in alloc; "unknown {noun} {shown:?}; did you mean \"{meant}\"?");
    }
    let there = listed(alloc, &known)?;
    format!(in alloc; "unknown {noun} {shown:?}; there are {there}")
}

/// The first fault of a line by its forms, or else of what the forms do not say, in words.
fn form_words<'a>(alloc: Global, value: &'a Value, kind: ObjectKind<'a>, line: &str) -> Words {
    match (
        Walk(None).whole(kind, value),
        out_of_order(value),
        too_long(value),
    ) {
        (Some(found), _, _) | (None, None, Some(found)) => words_of(alloc, found),
        (_, Some(place), _) => format!(in alloc; "{place}the names have to ascend, each once"),
        _ => format!(in alloc; "it is none of the forms of {line}"),
    }
}
