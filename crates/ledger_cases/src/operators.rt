//! Operators on words.

use crate::fault::CaseFault;
use hex::FromHex;
use std::alloc::{AllocError, Global};
use wasm_ast::{BinaryOp, CompareOp, ConvertOp, Trap, UnaryOp};
use wasm_num::{convert, word32, word64};

fn binary_op(name: &str) -> Option<BinaryOp> {
    match name {
        "add" => Some(BinaryOp::Add),
        "sub" => Some(BinaryOp::Sub),
        "mul" => Some(BinaryOp::Mul),
        "div_s" => Some(BinaryOp::DivS),
        "div_u" => Some(BinaryOp::DivU),
        "rem_s" => Some(BinaryOp::RemS),
        "rem_u" => Some(BinaryOp::RemU),
        "and" => Some(BinaryOp::And),
        "or" => Some(BinaryOp::Or),
        "xor" => Some(BinaryOp::Xor),
        "shl" => Some(BinaryOp::Shl),
        "shr_s" => Some(BinaryOp::ShrS),
        "shr_u" => Some(BinaryOp::ShrU),
        "rotl" => Some(BinaryOp::Rotl),
        "rotr" => Some(BinaryOp::Rotr),
        _ => None,
    }
}

fn compare_op(name: &str) -> Option<CompareOp> {
    match name {
        "eq" => Some(CompareOp::Eq),
        "ne" => Some(CompareOp::Ne),
        "lt_s" => Some(CompareOp::LtS),
        "lt_u" => Some(CompareOp::LtU),
        "gt_s" => Some(CompareOp::GtS),
        "gt_u" => Some(CompareOp::GtU),
        "le_s" => Some(CompareOp::LeS),
        "le_u" => Some(CompareOp::LeU),
        "ge_s" => Some(CompareOp::GeS),
        "ge_u" => Some(CompareOp::GeU),
        _ => None,
    }
}

fn unary_op(name: &str) -> Option<UnaryOp> {
    match name {
        "clz" => Some(UnaryOp::Clz),
        "ctz" => Some(UnaryOp::Ctz),
        "popcnt" => Some(UnaryOp::Popcnt),
        "extend8_s" => Some(UnaryOp::Extend8S),
        "extend16_s" => Some(UnaryOp::Extend16S),
        "extend32_s" => Some(UnaryOp::Extend32S),
        _ => None,
    }
}

/// An operator's name and the digits of its operands; those that a line lacks are empty.
#[derive(Clone, Copy)]
struct Application<'a> {
    operator: &'a str,
    first: &'a str,
    second: &'a str,
}

/// What an operator gives.
#[derive(Clone, Copy)]
enum Given {
    Word32(u32),
    Word64(u64),
    Trapped(Trap),
}

/// What the operator of a verb gives for the words behind it.
pub fn apply_operator(alloc: Global, verb: &str, rest: &str) -> Result<String, CaseFault> {
    match apply(verb, application_of(rest)) {
        Some(given) => Ok(given_text(alloc, given)?),
        None => Err(CaseFault::BadLine),
    }
}

fn application_of(text: &str) -> Application<'_> {
    let mut words = text.split(' ');
    Application {
        operator: words.next().unwrap_or(""),
        first: words.next().unwrap_or(""),
        second: words.next().unwrap_or(""),
    }
}

fn given_text(alloc: Global, given: Given) -> Result<String, AllocError> {
    match given {
        Given::Word32(word) => format!(in alloc; "{word:08x}"),
        Given::Word64(word) => format!(in alloc; "{word:016x}"),
        Given::Trapped(trap) => format!(in alloc; "{trap:?}"),
    }
}

/// What the verb's group of operators gives, where the words are of that group.
fn apply(verb: &str, words: Application<'_>) -> Option<Given> {
    match verb {
        "binary32" => binary(words, false),
        "binary64" => binary(words, true),
        "compare32" => compare(words, false),
        "compare64" => compare(words, true),
        "unary32" => unary(words, false),
        "unary64" => unary(words, true),
        "eqz32" => Some(Given::Word32(word32::eqz(word_32(words.operator)?))),
        "eqz64" => Some(Given::Word32(word64::eqz(word_64(words.operator)?))),
        "convert" => convert_word(words),
        _ => None,
    }
}

fn binary(words: Application<'_>, is_wide: bool) -> Option<Given> {
    let op = binary_op(words.operator)?;
    let given = if is_wide {
        word64::binary(op, word_64(words.first)?, word_64(words.second)?).map(Given::Word64)
    } else {
        word32::binary(op, word_32(words.first)?, word_32(words.second)?).map(Given::Word32)
    };
    Some(given.unwrap_or_else(Given::Trapped))
}

fn compare(words: Application<'_>, is_wide: bool) -> Option<Given> {
    let op = compare_op(words.operator)?;
    Some(Given::Word32(if is_wide {
        word64::compare(op, word_64(words.first)?, word_64(words.second)?)
    } else {
        word32::compare(op, word_32(words.first)?, word_32(words.second)?)
    }))
}

fn unary(words: Application<'_>, is_wide: bool) -> Option<Given> {
    let op = unary_op(words.operator)?;
    Some(if is_wide {
        Given::Word64(word64::unary(op, word_64(words.first)?))
    } else {
        Given::Word32(word32::unary(op, word_32(words.first)?))
    })
}

fn convert_word(words: Application<'_>) -> Option<Given> {
    Some(Given::Word64(match words.operator {
        "wrap" => convert(ConvertOp::WrapI64, word_64(words.first)?),
        "extend_s" => convert(ConvertOp::ExtendI32S, u64::from(word_32(words.first)?)),
        "extend_u" => convert(ConvertOp::ExtendI32U, u64::from(word_32(words.first)?)),
        _ => return None,
    }))
}

/// A word of 32 bits from its eight hex digits.
fn word_32(digits: &str) -> Option<u32> {
    let bytes = <[u8; 4] as FromHex>::from_hex(digits).ok()?;
    Some(u32::from_be_bytes(bytes))
}

/// A word of 64 bits from its sixteen hex digits.
fn word_64(digits: &str) -> Option<u64> {
    let bytes = <[u8; 8] as FromHex>::from_hex(digits).ok()?;
    Some(u64::from_be_bytes(bytes))
}
