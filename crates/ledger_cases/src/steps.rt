//! Runs of modules by a stepper.

use crate::runs::{Runner, run_invoke};
use interp::{Host, Outcome};
use std::alloc::{AllocError, Global};
use wasm_trace::Stepper;
use wasm_validate::ValidModule;

/// What each step executes and the fuel that it leaves, where it costs fuel, and how `invoke` ends
/// with this fuel.
pub fn trace(alloc: Global, valid: &ValidModule, fuel: u64) -> Result<String, AllocError> {
    let mut steps = Vec::new(alloc);
    let end = run_invoke(alloc, valid, fuel, Runner::Stepper, &mut steps)?;
    let mut line = String::new(alloc);
    for step in &steps {
        line.push_str(step.as_str())?;
        line.push_str(", ")?;
    }
    line.push_str(end.as_str())?;
    Ok(line)
}

/// How a stepper ends. What its steps show is added.
pub fn step_to_end<H: Host>(
    stepper: &mut Stepper<'_>,
    host: &mut H,
    shown: &mut Vec<String>,
) -> Result<Outcome, AllocError> {
    for _ in 0..u64::MAX {
        if let Some(outcome) = stepper.step(host)? {
            return Ok(outcome);
        }
        if let Some(step) = stepper.render()? {
            shown.push(step)?;
        }
    }
    Ok(Outcome::Spent)
}
