//! What is wrong with a value.

use crate::tables::{Form, MOST_ARGUMENT_BYTES};
use ed25519::{is_of_small_order, is_public_key};
use hex::FromHex;
use json_genesis::GenesisRefusal;
use serde_json::{Number, Value};
use std::fmt::{self, Display, Formatter, Write};

/// What is wrong with a value. Letters are counted from 1.
#[derive(Clone, Copy)]
pub(crate) enum Fault {
    /// It is of the first kind, where the second is needed.
    Kind(&'static str, &'static str),
    /// This letter is no hex digit.
    NoHexDigit(usize),
    /// Hex of an odd count of digits.
    OddHex,
    /// This letter is none of these.
    Letter(usize, &'static str),
    /// What is told first is so large, and has to be from the least to the greatest.
    Range(&'static str, u64, u64, u64),
    /// Anything else.
    Other(&'static str),
}

impl Fault {
    /// The refusal of a file that has such a fault: `Field` (802) or `Range` (803).
    pub(crate) fn refusal(self) -> GenesisRefusal {
        match self {
            Fault::Kind(..) | Fault::NoHexDigit(_) | Fault::OddHex => GenesisRefusal::Field,
            _ => GenesisRefusal::Range,
        }
    }
}

impl Display for Fault {
    fn fmt<W: Write>(&self, f: &mut Formatter<W>) -> fmt::Result {
        match *self {
            Fault::Kind(found, wanted) => write!(f, "it is {found}, and has to be {wanted}"),
            Fault::NoHexDigit(place) => write!(f, "its letter {place} is no hex digit"),
            Fault::OddHex => f.write_str("its count of hex digits is odd, and has to be even"),
            Fault::Letter(place, letters) => {
                write!(f, "its letter {place} is none of these: {letters}")
            }
            Fault::Range(what, number, least, greatest) => {
                write!(f, "{what} is {number}, and has to be {least}")?;
                if least < greatest {
                    write!(f, " to {greatest}")?;
                }
                Ok(())
            }
            Fault::Other(words) => f.write_str(words),
        }
    }
}

/// The kind of a value.
pub(crate) fn kind_of(value: &Value) -> &'static str {
    match value {
        Value::Null => "null",
        Value::Bool(_) => "true or false",
        Value::Number(_) => "a number",
        Value::String(_) => "a text",
        Value::Array(_) => "a list",
        Value::Object(_) => "an object",
    }
}

/// The kind of the values of a form.
fn wanted_kind(form: Form) -> &'static str {
    match form {
        Form::Flag => "true or false",
        Form::Number(..) | Form::FirstByte => "a number",
        Form::List(..) => "a list",
        _ => "a text",
    }
}

/// What is wrong with a value by its form, without the items of a list.
pub(crate) fn fault_of(form: Form, value: &Value) -> Option<Fault> {
    let (found, wanted) = (kind_of(value), wanted_kind(form));
    match value {
        _ if found != wanted => Some(Fault::Kind(found, wanted)),
        Value::Number(number) => of_number(form, *number),
        Value::String(text) => of_text(form, text.as_str()),
        Value::Array(items) => of_items(form, items.len()),
        _ => None,
    }
}

/// What is wrong with a number, where this is a form of numbers.
fn of_number(form: Form, number: Number) -> Option<Fault> {
    match (form, number.as_u64()) {
        (_, None) => Some(Fault::Other("it has to be a whole number in digits alone")),
        (Form::Number(least, greatest), Some(n)) => ranged("it", n, least, greatest),
        (_, Some(1 | 2 | 17 | 18)) => None,
        _ => Some(Fault::Other("it has to be 1, 2, 17 or 18")),
    }
}

/// What is wrong with a list of so many items, where this is a form of lists.
fn of_items(form: Form, count: usize) -> Option<Fault> {
    match form {
        Form::List(least, greatest, _) => {
            ranged("the count of its items", count as u64, least, greatest)
        }
        _ => None,
    }
}

/// What is wrong with a text, where this is a form of texts.
fn of_text(form: Form, text: &str) -> Option<Fault> {
    match form {
        Form::Hex(least, greatest) => of_hex(text, least, greatest),
        Form::Argument if text != "-" => of_hex(text, 0, MOST_ARGUMENT_BYTES),
        Form::PublicKey => of_public_key(text),
        Form::OrgName => {
            let wrong = text
                .bytes()
                .position(|it| !it.is_ascii_alphanumeric() && it != b'_');
            of_letters(text, wrong, "A-Z, a-z, 0-9 and _", 32)
        }
        Form::ChaincodeName => {
            let wrong = text.bytes().position(
                |it| !matches!(it, b'a'..=b'z' | b'0'..=b'9' | b'_' | b'-'),
            );
            of_letters(text, wrong, "a-z, 0-9, _ and -", 32)
        }
        Form::Policy => {
            let wrong = text.bytes().position(|it| !matches!(it, b' '..=b'~'));
            of_letters(text, wrong, "the characters from the space to ~", 1_024)
        }
        _ => None,
    }
}

/// What is wrong with a text of letters, where the first that is none of these stands here, and
/// that may have from 1 to so many.
fn of_letters(text: &str, wrong: Option<usize>, letters: &'static str, most: u64) -> Option<Fault> {
    match wrong {
        Some(before) => Some(Fault::Letter(before.saturating_add(1), letters)),
        None => ranged("the count of its letters", text.len() as u64, 1, most),
    }
}

/// What is wrong with hex of so many bytes.
fn of_hex(text: &str, least: u64, greatest: u64) -> Option<Fault> {
    match text.bytes().position(|byte| !byte.is_ascii_hexdigit()) {
        Some(before) => Some(Fault::NoHexDigit(before.saturating_add(1))),
        None if text.len() % 2 == 1 => Some(Fault::OddHex),
        None => ranged(
            "the count of its bytes",
            text.len() as u64 / 2,
            least,
            greatest,
        ),
    }
}

/// What is wrong with the hex of a public key.
fn of_public_key(text: &str) -> Option<Fault> {
    match <[u8; 32]>::from_hex(text) {
        Err(_) => of_hex(text, 32, 32),
        Ok(key) if is_public_key(&key) => None,
        Ok(key) if !is_of_small_order(&key) => {
            Some(Fault::Other("its bytes are no public key of Ed25519"))
        }
        Ok(_) => Some(Fault::Other(
            "its bytes are a point of small order, under which anybody signs",
        )),
    }
}

/// What is wrong with a number, or with a count.
pub(crate) fn ranged(what: &'static str, number: u64, least: u64, greatest: u64) -> Option<Fault> {
    if number < least || number > greatest {
        Some(Fault::Range(what, number, least, greatest))
    } else {
        None
    }
}
