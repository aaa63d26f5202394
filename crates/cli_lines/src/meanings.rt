//! What numbers and failures stand for, in words.

use crate::failure::Failure;
use committer::CommitRefusal;
use ledger_table::meaning_of;
use simulator::SimRefusal;
use std::alloc::{AllocError, Global};

/// What to do about a damaged record of a store.
pub const TAKE_AGAIN: &str =
    "the blocks before it are whole, and it and those behind are to be had again";

/// Why a simulation gave no payload, in words that end with the number.
pub fn simulation_words(alloc: Global, refusal: &SimRefusal) -> Result<String, AllocError> {
    let number = refusal.number();
    match refusal {
        SimRefusal::Trapped { kind, used } => {
            let (trap, kind) = (trap_name(kind.number()), kind.number());
            format!(in alloc;
                "the chaincode trapped by trap {kind}, {trap}, with {used} of fuel used ({number})"
            )
        }
        SimRefusal::Status(word) => {
            let status = (*word).cast_signed();
            format!(in alloc;
                "the chaincode returned the status {status}; its source says why ({number})"
            )
        }
        _ => number_words(alloc, number),
    }
}

/// The name of a trap.
fn trap_name(kind: u8) -> &'static str {
    match kind {
        1 => "unreachable",
        2 => "division by zero",
        3 => "integer overflow",
        4 => "memory out of bounds",
        5 => "undefined element",
        6 => "uninitialized element",
        7 => "indirect call type",
        _ => "call depth",
    }
}

/// Why a task failed, in words that end with the number. None where that is said elsewhere.
pub(crate) fn failure_words(
    alloc: Global,
    failure: &Failure,
) -> Option<Result<String, AllocError>> {
    match failure {
        Failure::Memory => Some(number_words(alloc, 9)),
        Failure::Simulation(refusal) => Some(simulation_words(alloc, refusal)),
        Failure::NoPlace => Some(number_words(alloc, 431)),
        Failure::NotEntered => Some(number_words(alloc, 432)),
        Failure::Usage
        | Failure::File
        | Failure::Module(_)
        | Failure::Genesis(_)
        | Failure::KeyFile
        | Failure::NoSeed
        | Failure::Commit(_)
        | Failure::Flags(_)
        | Failure::Store(_)
        | Failure::BadLine(_)
        | Failure::Printed
        | Failure::Output => None,
    }
}

/// What a number stands for, and what to do about it, in words that end with the number.
pub fn number_words(alloc: Global, number: u16) -> Result<String, AllocError> {
    let meaning = meaning_of(number);
    format!(in alloc; "{meaning} ({number})")
}

/// That the block of a number has other flags than the table's. The words have no number.
pub fn flags_words(alloc: Global, block: usize) -> Result<String, AllocError> {
    let advice = meaning_of(711).advice;
    format!(in alloc; "block {block} has other flags than the rules give; {advice}")
}

/// Why the block of a number does not fit, in words that end with the number of the refusal.
pub fn block_words(
    alloc: Global,
    block: usize,
    refusal: CommitRefusal,
) -> Result<String, AllocError> {
    let words = number_words(alloc, refusal.number())?;
    format!(in alloc; "block {block} does not fit: {words}")
}
