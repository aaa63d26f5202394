//! What a call comes to, as JSON.

ghost use Rattle.std.specs.Prelude.{◌≡◌, Err, IfOk, Result, string_bytes};
ghost use Rattle.serde_json.specs.View.{view};
ghost use Rattle.fab_types.specs.Payloads.{Payload};
ghost use Rattle.simulator.specs.Answers.{Answers, payload_in};
ghost use Rattle.simulator.specs.Execution.{exec_of};
ghost use Rattle.simulator.specs.declared.refusal.SimRefusal.{SimRefusal};
ghost use Rattle.world_state.specs.Writing.{as_state};
ghost use Rattle.json_questions.specs.Answers.{call_of, outcome_json, refusal_words, status_words};

use fab_types::{Call, Name, Proposal, Value as Bytes};
use json_chain::{Object, payload_of};
use serde_json::Value;
use simulator::{Book, SimRefusal, simulate_in};
use std::alloc::{AllocError, Global};
use world_state::StateMap;

/// What a call of a chaincode comes to on a state: what its payload read, gives and would write, or
/// why it gives none.
pub(crate) fn outcome_of(
    alloc: Global,
    book: &Book,
    state: &StateMap,
    chaincode: &Name,
    argument: &Bytes,
) -> Result<Value, AllocError>
    ensures { IfOk result
        (λ v. view v
        ≡ outcome_json
        (payload_in (exec_of book.now) (call_of chaincode.now argument.now)
        (as_state state.now.entries))) }
{
    let call = Call {
        chaincode: chaincode.clone()?,
        argument: argument.clone()?,
        nonce: [0; 16],
    };
    match simulate_in(alloc, book, state, &Proposal::Call(call)) {
        Ok(payload) => payload_of(alloc, &payload),
        Err(refusal) => refused_of(alloc, refusal),
    }
}

/// What a call comes to that was refused. Want of memory, the simulation's too, is the only error.
fn refused_of(alloc: Global, refusal: SimRefusal) -> Result<Value, AllocError>
    ensures { (wanted : Result Payload SimRefusal) → Answers wanted (Err refusal) →
        IfOk result (λ v. view v ≡ outcome_json wanted) }
{
    match refusal {
        SimRefusal::Memory => Err(AllocError),
        refusal => told_of(alloc, refusal),
    }
}

/// Why a call gives no payload.
fn told_of(alloc: Global, refusal: SimRefusal) -> Result<Value, AllocError>
    ensures { IfOk result (λ v. view v ≡ outcome_json (Err refusal)) }
{
    let words = refusal_words(alloc, refusal)?;
    let mut object = Object::new(alloc);
    object.put("refused", Value::String(words))?;
    Ok(object.into_value())
}

/// What a refusal says behind `refused`.
fn refusal_words(alloc: Global, refusal: SimRefusal) -> Result<String, AllocError>
    ensures { IfOk result (λ s. string_bytes s ≡ refusal_words refusal) }
{
    match refusal {
        SimRefusal::Trapped { kind, .. } => {
            let number = kind.number();
            format!(in alloc; "402 trap {number}")
        }
        SimRefusal::Status(status) => status_words(alloc, status),
        refusal => {
            let number = refusal.number();
            format!(in alloc; "{number}")
        }
    }
}

/// What a status says, as a signed number (two's complement).
fn status_words(alloc: Global, status: u32) -> Result<String, AllocError>
    ensures { IfOk result (λ s. string_bytes s ≡ status_words status) }
{
    let status = status.cast_signed();
    format!(in alloc; "404 status {status}")
}
