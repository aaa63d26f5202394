//! The words of a line, and the bytes that they spell.

use crate::fault::CaseFault;
use std::alloc::Global;

/// The first word, and what follows the blank behind it.
pub fn split_word(text: &str) -> (&str, &str) {
    text.split_once(' ').unwrap_or((text, ""))
}

/// The fuel that the first word is, and what follows it.
pub fn split_fuel(text: &str) -> Result<(u64, &str), CaseFault> {
    let (fuel, pieces) = split_word(text);
    Ok((fuel.parse::<u64>()?, pieces))
}

/// The bytes of all pieces, in order.
pub fn bytes_of(alloc: Global, text: &str) -> Result<Vec<u8>, CaseFault> {
    let mut bytes = Vec::new(alloc);
    for piece in text.split_whitespace() {
        add_piece(alloc, &mut bytes, piece)?;
    }
    Ok(bytes)
}

/// Adds the bytes of a piece, as many times as it says.
fn add_piece(alloc: Global, bytes: &mut Vec<u8>, piece: &str) -> Result<(), CaseFault> {
    let (digits, times) = match piece.split_once('*') {
        Some((digits, count)) => (digits, count.parse::<u32>()?),
        None => (piece, 1),
    };
    let unit = hex::decode(alloc, digits)?;
    for _ in 0..times {
        bytes.extend_from_slice(&unit)?;
    }
    Ok(())
}
