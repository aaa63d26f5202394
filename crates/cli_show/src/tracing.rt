//! The command `trace`.

ghost use Rattle.std.specs.Prelude.{List, ℕ, IfErr, IfOk, OnErr, OnOk};
ghost use Rattle.wasm_trace.specs.Standing.{standing};
ghost use Rattle.cli_lines.specs.Told.{Answers, Begins, IsBrokenOff, Prints, PrintsNothing, Tells};
ghost use Rattle.cli_show.specs.Tracing.{IsTrace, IsTraceBegun, NextStep, TraceBegins, Traces, named_text, outcome_text};

use cli_lines::{Failure, Printer};
use fab_types::Call;
use host_api::{PlainMap, Recorder};
use interp::{Host, Outcome};
use ledger_setting::Genesis;
use simulator::{Chaincode, SimRefusal, given_by};
use std::alloc::Global;
use std::io::Write;
use wasm_trace::Stepper;

/// Runs a call on the empty state by reduction. Prints so many at most of the steps that cost fuel,
/// each with its number from 1 on, and how the call ends.
///
/// Refused exactly where the book has no chaincode of the call's name (401).
pub fn trace<W: Write>(
    alloc: Global,
    genesis: &Genesis,
    call: &Call,
    most: u32,
    out: &mut Printer<'_, W>,
) -> Result<(), Failure>
    ensures tells { Tells out.old out.new result }
    ensures answers { Answers (Traces genesis.now call.now most) out.old out.new result }
    ensures begins { Begins (TraceBegins genesis.now call.now most) out.old out.new result }
{
    let Some(chaincode) = genesis.book.get(&call.chaincode) else {
        return Err(Failure::Simulation(SimRefusal::UnknownChaincode));
    };
    let state = PlainMap::empty(alloc);
    let given = given_by(genesis.book.edition(), call);
    let mut recorder = Recorder::new(alloc, &state, given);
    trace_on(alloc, chaincode, &mut recorder, most, out)
}

/// The same, of a chaincode whose calls a host answers.
fn trace_on<H: Host, W: Write>(
    alloc: Global,
    chaincode: &Chaincode,
    host: &mut H,
    most: u32,
    out: &mut Printer<'_, W>,
) -> Result<(), Failure>
    ensures tells { Tells out.old out.new result }
    ensures lost { IfErr result IsBrokenOff }
    ensures traces { OnOk result
        ((text : List ℕ) × IsTrace chaincode.now.«module» (H.answers host.old)
        (H.records host.old) chaincode.now.fuel most text × Prints out.old out.new text) }
    ensures begins { Begins
        (IsTraceBegun chaincode.now.«module» (H.answers host.old) (H.records host.old)
        chaincode.now.fuel most) out.old out.new result }
{
    // The contract of this call says that the module is valid.
    let _module = chaincode.module.module();
    let mut stepper = Stepper::new(alloc, &chaincode.module, chaincode.fuel)?;
    let mut printed = 0;
    loop {
        match stepper.step(host)? {
            None => printed = print_step(&stepper, most, printed, out)?,
            Some(outcome) => return print_outcome(outcome, out),
        }
    }
}

/// Prints the last step by the number behind those that are printed, if it cost fuel and `most` are
/// not printed yet. Answers how many are printed then.
fn print_step<W: Write>(
    stepper: &Stepper<'_>,
    most: u32,
    printed: u32,
    out: &mut Printer<'_, W>,
) -> Result<u32, Failure>
    ensures tells { Tells out.old out.new result }
    ensures lost { IfErr result IsBrokenOff }
    ensures prints { IfOk result
        (λ count. (text : List ℕ)
        × NextStep (named_text (standing stepper.now).shown (standing stepper.now).at.fuel) most
        printed count text × Prints out.old out.new text) }
    ensures nothing { OnErr result (PrintsNothing out.old out.new) }
{
    if most <= printed {
        return Ok(printed);
    }
    match stepper.render()? {
        None => Ok(printed),
        Some(step) => {
            let number = printed + 1;
            writeln!(out, "{number} {step}")?;
            Ok(number)
        }
    }
}

/// Prints how a call ended, with the word that it left as a signed number.
fn print_outcome<W: Write>(outcome: Outcome, out: &mut Printer<'_, W>) -> Result<(), Failure>
    ensures tells { Tells out.old out.new result }
    ensures lost { IfErr result IsBrokenOff }
    ensures prints { OnOk result (Prints out.old out.new (outcome_text outcome)) }
    ensures nothing { OnErr result (PrintsNothing out.old out.new) }
{
    match outcome {
        Outcome::Returned { status, used } => {
            let status = status.cast_signed();
            writeln!(out, "returned {status} used {used}")
        }
        Outcome::Trapped { kind, used } => {
            let kind = kind.number();
            writeln!(out, "trapped {kind} used {used}")
        }
        Outcome::Spent => writeln!(out, "spent"),
    }
}
