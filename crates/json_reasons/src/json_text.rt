//! Why a text is no JSON (RFC 8259, sections 2 to 7).

use crate::Words;
use serde_json::{Error, Value};
use std::alloc::{AllocError, Global};

/// The JSON of some bytes, or why they are none, in words.
#[derive(Drop)]
pub(crate) enum Read {
    Json(Value),
    None(String),
}

/// The JSON of the bytes of a line or of a file, or why they are none: with the line, where they
/// are of a file, and the column, both from 1 and in bytes.
pub(crate) fn read_json(alloc: Global, bytes: &[u8], is_file: bool) -> Result<Read, AllocError> {
    if bytes.is_empty() {
        return Ok(Read::None(String::from_str(alloc, "it is empty")?));
    }
    let words = match std::str::from_utf8(bytes) {
        Ok(text) => match Value::from_str(alloc, text) {
            Ok(value) => return Ok(Read::Json(value)),
            Err(error) if error.is_memory() => return Err(AllocError),
            Err(error) => words_of(alloc, bytes, &error, is_file),
        },
        Err(fault) => {
            let place = fault.valid_up_to().saturating_add(1);
            format!(in alloc; "byte {place} is no UTF-8")
        }
    };
    Ok(Read::None(words?))
}

/// Where a text is no JSON, and why.
fn words_of(alloc: Global, text: &[u8], error: &Error, is_file: bool) -> Words {
    let (line, mut column) = (error.line(), error.column());
    let mut offset = offset_of(text, line, column);
    // A text that ends too early goes wrong behind its last byte, unless that is in quotes.
    if error.is_eof() && offset.saturating_add(1) >= text.len() {
        offset = text.len();
        column = column.saturating_add(1);
    }
    let wrong = expected(&text[..offset.min(text.len())], text.get(offset).copied());
    if is_file {
        format!(in alloc; "line {line}, column {column}: {wrong}")
    } else {
        format!(in alloc; "column {column}: {wrong}")
    }
}

/// The offset of a line and a column of a text.
fn offset_of(text: &[u8], line: usize, column: usize) -> usize {
    let (mut start, mut before) = (0usize, line);
    for (offset, byte) in text.iter().enumerate() {
        if before <= 1 {
            break;
        }
        if *byte == b'\n' {
            start = offset.saturating_add(1);
            before = before.saturating_sub(1);
        }
    }
    start.saturating_add(column).saturating_sub(1)
}

/// What is expected behind these bytes, where this byte or the end is at fault.
fn expected(before: &[u8], byte: Option<u8>) -> &'static str {
    let last = before.trim_ascii_end().last().copied();
    match (last, byte) {
        (None | Some(b'[' | b':' | b'{' | b','), Some(b'"')) => {
            "this text has no end, or a letter that has to be escaped"
        }
        (Some(b'[' | b':'), Some(b'[' | b'{')) => {
            "more than 127 brackets stand inside one another"
        }
        (Some(b'{'), _) => "expected the name of a field in quotes, or `}`",
        (Some(b','), _) => "expected a value, or in an object the name of a field in quotes",
        (None | Some(b'[' | b':'), _) => {
            "expected a number, a text in quotes, `true`, `false`, `null`, `[` or `{`"
        }
        _ => "expected `:`, `,`, a closing bracket or the end",
    }
}
