//! Runs of modules on a state without keys, and on hosts that only answer.

use crate::fault::CaseFault;
use crate::hosts::run_on_answer;
use crate::steps::{step_to_end, trace};
use crate::texts::write_hex;
use fab_types::{Namespace, Value, WriteItem, WriteSet};
use host_api::{Given, PlainMap, Recorder};
use interp::{Host, Outcome, run};
use std::alloc::{AllocError, Global};
use wasm_ast::HostAnswer;
use wasm_trace::{Stepper, run_by_reduction};
use wasm_validate::ValidModule;

/// What is asked about a valid module.
#[derive(Clone, Copy)]
pub enum Question {
    /// The index of its entry, and the host calls that it imports.
    Parts,
    /// How `invoke` ends with this fuel, what it used, and the keys that it wrote with their
    /// values.
    Run(u64),
    /// What each step executes and the fuel that it leaves, where it costs fuel, before that.
    Trace(u64),
    /// Whether all runners answer the same with every fuel up to this.
    Compare(u64),
    /// How `invoke` ends with this fuel on a host that always answers so.
    Answer(HostAnswer, u64),
}

/// What runs a module.
#[derive(Clone, Copy)]
pub enum Runner {
    /// `run`, by flat code.
    Flat,
    /// `run_by_reduction`.
    Reduction,
    /// A stepper, to its end.
    Stepper,
}

/// The answer to a question about a valid module.
pub fn answer_question(
    alloc: Global,
    question: Question,
    valid: &ValidModule,
) -> Result<String, CaseFault> {
    Ok(match question {
        Question::Parts => {
            let (invoke, calls) = (valid.invoke(), valid.host_calls());
            format!(in alloc; "valid invoke={invoke} calls={calls:?}")
        }
        Question::Run(fuel) => run_invoke(alloc, valid, fuel, Runner::Flat, &mut Vec::new(alloc)),
        Question::Trace(fuel) => trace(alloc, valid, fuel),
        Question::Compare(last) => compared(alloc, valid, last),
        Question::Answer(answer, fuel) => run_on_answer(alloc, valid, answer, fuel),
    }?)
}

fn compared(alloc: Global, valid: &ValidModule, last: u64) -> Result<String, AllocError> {
    for fuel in 0..=last {
        if !is_same(alloc, valid, fuel)? {
            return format!(in alloc; "differs with {fuel}");
        }
    }
    format!(in alloc; "same up to {last}")
}

/// Whether all runners answer the same with this fuel.
fn is_same(alloc: Global, valid: &ValidModule, fuel: u64) -> Result<bool, AllocError> {
    let mut shown = Vec::new(alloc);
    let wanted = run_invoke(alloc, valid, fuel, Runner::Flat, &mut shown)?;
    let reduced = run_invoke(alloc, valid, fuel, Runner::Reduction, &mut shown)?;
    let stepped = run_invoke(alloc, valid, fuel, Runner::Stepper, &mut shown)?;
    Ok(reduced == wanted && stepped == wanted)
}

/// The run of `invoke` without an argument on a state without keys. What a stepper shows is added.
pub fn run_invoke(
    alloc: Global,
    valid: &ValidModule,
    fuel: u64,
    runner: Runner,
    shown: &mut Vec<String>,
) -> Result<String, AllocError> {
    let state = PlainMap::empty(alloc);
    let argument = Value::new(Vec::new(alloc)).unwrap();
    let given = Given::new(&argument, Namespace::all());
    let mut recorder = Recorder::new(alloc, &state, given);
    let outcome = outcome_of(alloc, valid, &mut recorder, fuel, runner, shown);
    run_answer(alloc, outcome, &recorder.into_parts().writes)
}

fn outcome_of<H: Host>(
    alloc: Global,
    valid: &ValidModule,
    host: &mut H,
    fuel: u64,
    runner: Runner,
    shown: &mut Vec<String>,
) -> Result<Outcome, AllocError> {
    match runner {
        Runner::Flat => run(alloc, valid, host, fuel),
        Runner::Reduction => run_by_reduction(alloc, valid, host, fuel),
        Runner::Stepper => step_to_end(&mut Stepper::new(alloc, valid, fuel)?, host, shown),
    }
}

/// How a run ended, and what it wrote.
fn run_answer(
    alloc: Global,
    outcome: Result<Outcome, AllocError>,
    writes: &WriteSet,
) -> Result<String, AllocError> {
    let mut answer = outcome_text(alloc, outcome?)?;
    for item in writes.as_slice() {
        write_written(&mut answer, item)?;
    }
    Ok(answer)
}

/// How a run ended, and the fuel that it used.
pub fn outcome_text(alloc: Global, outcome: Outcome) -> Result<String, AllocError> {
    match outcome {
        Outcome::Returned { status, used } => format!(in alloc; "returned {status} used {used}"),
        Outcome::Trapped { kind, used } => format!(in alloc; "trapped {kind:?} used {used}"),
        Outcome::Spent => String::from_str(alloc, "spent"),
    }
}

/// A key that was written and its value in hex, behind a blank.
fn write_written(answer: &mut String, item: &WriteItem) -> Result<(), AllocError> {
    answer.push(' ')?;
    write_hex(answer, item.key.as_slice())?;
    match &item.value {
        Some(value) => {
            answer.push('=')?;
            write_hex(answer, value.as_slice())
        }
        None => answer.push_str(" deleted"),
    }
}
