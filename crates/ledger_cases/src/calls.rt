//! Calls of the host.

use crate::bytes::{bytes_of, split_word};
use crate::fault::CaseFault;
use crate::texts::{separate, write_hex, write_ranges, write_reads, write_result, write_writes};
use crate::transactions::{chaincode_name, write_item};
use fab_types::{Edition, Namespace, Value};
use host_api::{Given, Parts, PlainMap, Recorder};
use interp::{Host, HostAnswer};
use std::alloc::{AllocError, Global};
use std::fmt::Write;
use wasm_ast::arity;
use wasm_instance::Memory;
use wasm_typing::call_named;

/// The parts of a case.
#[derive(Clone, Copy)]
struct Case<'a> {
    state: &'a str,
    argument: &'a str,
    memory: &'a str,
    calls: &'a str,
}

/// What the host answers to calls of `kv` under an edition of the rules, and what it recorded.
pub fn call_host(alloc: Global, edition: Edition, text: &str) -> Result<String, CaseFault> {
    let case = case_of(text).ok_or(CaseFault::BadLine)?;
    let argument = Value::new(bytes_of(alloc, case.argument)?).ok_or(CaseFault::BadLine)?;
    let given = Given::new(&argument, Namespace::of(edition, &chaincode_name()?));
    let memory = bytes_of(alloc, case.memory)?;
    let mut state = PlainMap::empty(alloc);
    record_calls(alloc, &mut state, given, &memory, case)
}

fn case_of(text: &str) -> Option<Case<'_>> {
    let (state, rest) = text.split_once(" | ")?;
    let (argument, rest) = rest.split_once(" | ")?;
    let (memory, calls) = rest.split_once(" | ")?;
    Some(Case {
        state,
        argument,
        memory,
        calls,
    })
}

/// Puts on a state what the writes leave.
fn write_each(alloc: Global, state: &mut PlainMap, writes: &str) -> Result<(), CaseFault> {
    for word in writes.split_whitespace() {
        state.write(&write_item(alloc, word)?)?;
    }
    Ok(())
}

/// What the host answers to the calls of a case on the state that its writes leave.
fn record_calls(
    alloc: Global,
    state: &mut PlainMap,
    given: Given<'_>,
    memory: &[u8],
    case: Case<'_>,
) -> Result<String, CaseFault> {
    write_each(alloc, state, case.state)?;
    let mut changed = Memory::new(alloc, memory.len())?;
    changed.write(0, memory);
    let mut host = Recorder::new(alloc, state, given);
    let answers = answers(alloc, &mut host, &mut changed, memory, case.calls);
    with_parts(answers, &host.into_parts())
}

/// The answers to the calls, with blanks between them, and the memory where it is no longer as it
/// was.
fn answers(
    alloc: Global,
    host: &mut Recorder<'_, PlainMap>,
    memory: &mut Memory,
    before: &[u8],
    calls: &str,
) -> Result<String, CaseFault> {
    let mut answer = String::new(alloc);
    for call in calls.split(" | ") {
        separate(&mut answer, " ")?;
        write_answer(&mut answer, call_once(alloc, host, memory, call)?)?;
    }
    write_change(&mut answer, before, memory.front(before.len()))?;
    Ok(answer)
}

/// The memory, where it is no longer as it was.
fn write_change(answer: &mut String, before: &[u8], memory: &[u8]) -> Result<(), AllocError> {
    if memory == before {
        return Ok(());
    }
    answer.push_str(", memory ")?;
    write_hex(answer, memory)
}

/// The answers, and behind them what was recorded.
fn with_parts(answers: Result<String, CaseFault>, parts: &Parts) -> Result<String, CaseFault> {
    let mut answer = answers?;
    write_parts(&mut answer, parts)?;
    Ok(answer)
}

fn write_parts(answer: &mut String, parts: &Parts) -> Result<(), AllocError> {
    answer.push_str(", recorded")?;
    write_result(answer, &parts.result)?;
    write_reads(answer, parts.reads.as_slice())?;
    write_ranges(answer, parts.ranges.as_slice())?;
    write_writes(answer, parts.writes.as_slice())
}

/// A word as a signed number.
fn write_answer(answer: &mut String, given: HostAnswer) -> Result<(), AllocError> {
    match given {
        HostAnswer::Value(word) => write!(answer, "{}", word.cast_signed()),
        HostAnswer::OutOfBounds => answer.push_str("out-of-bounds"),
    }
}

/// A call by its name and its numbers.
fn call_once(
    alloc: Global,
    host: &mut Recorder<'_, PlainMap>,
    memory: &mut Memory,
    call: &str,
) -> Result<HostAnswer, CaseFault> {
    let (name, numbers) = split_word(call);
    let which = call_named(name).ok_or(CaseFault::BadLine)?;
    let args = numbers_of(alloc, numbers)?;
    if args.len() != arity(which) {
        return Err(CaseFault::BadLine);
    }
    Ok(host.call(which, &args, memory)?)
}

fn numbers_of(alloc: Global, text: &str) -> Result<Vec<u32>, CaseFault> {
    let mut numbers = Vec::new(alloc);
    for word in text.split_whitespace() {
        numbers.push(word.parse::<u32>()?)?;
    }
    Ok(numbers)
}
