//! Runs on a host that only answers.

use crate::fault::CaseFault;
use crate::runs::outcome_text;
use interp::{Host, HostAnswer, HostCall, run};
use std::alloc::{AllocError, Global};
use wasm_instance::Memory;
use wasm_validate::ValidModule;

/// A host that always answers the same, and records nothing.
#[derive(Drop)]
struct Fixed {
    answer: HostAnswer,
}

impl Host for Fixed {
    ghost use Rattle.std.specs.Prelude.{ℕ};

    ghost Records = { ℕ };

    ghost records = { λ _. 0 };

    ghost answers = { λ host which args memory records.
        record { answer = host.answer; memory = memory; records = 0 } };

    ghost Context = { Unit {0} };

    ghost context = { λ _. tt };

    fn call(
        &mut self,
        _which: HostCall,
        _args: &[u32],
        _memory: &mut Memory,
    ) -> Result<HostAnswer, AllocError> {
        Ok(self.answer)
    }
}

/// The answer that a word is: a number, or `past` for a trap past the end of the memory.
pub fn answer_of(word: &str) -> Result<HostAnswer, CaseFault> {
    if word == "past" {
        return Ok(HostAnswer::OutOfBounds);
    }
    Ok(HostAnswer::Value(word.parse::<u32>()?))
}

/// How `invoke` ends where the host always answers so.
pub fn run_on_answer(
    alloc: Global,
    valid: &ValidModule,
    answer: HostAnswer,
    fuel: u64,
) -> Result<String, AllocError> {
    let mut host = Fixed { answer };
    let outcome = run(alloc, valid, &mut host, fuel)?;
    outcome_text(alloc, outcome)
}
