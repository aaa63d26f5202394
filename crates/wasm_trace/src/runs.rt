//! Runs as the reduction goes.

ghost use Rattle.std.specs.Prelude.{◌≡◌, ◌≤◌, IfOk};
ghost use Rattle.interp.specs.Ended.{used_of};
ghost use Rattle.wasm_trace.specs.Ending.{ReductionEnds};

use crate::stepper::Stepper;
use interp::{Host, Outcome};
use std::alloc::{AllocError, Global};
use wasm_validate::ValidModule;

/// Invokes the function that a valid module exports as `invoke`, on a fresh instance, with this
/// fuel.
///
/// The reductions of the standard are taken one by one (Core 1.0, chapter 4), and the run ends as
/// they do, and so do the host's records. By the law `ends_once` there is one such end, and by
/// `ends_as_run` it is that of `interp::run`.
///
/// `AllocError` where a vector could not grow.
pub fn run_by_reduction<H: Host>(
    alloc: Global,
    valid: &ValidModule,
    host: &mut H,
    fuel: u64,
) -> Result<Outcome, AllocError>
    ensures ends { IfOk result
        (λ r. ReductionEnds valid.now (H.answers host.old) (H.records host.old) fuel r
        (H.records host.new)) }
    ensures stays { IfOk result (λ _. H.answers host.new ≡ H.answers host.old) }
    ensures keeps { IfOk result (λ _. H.context host.new ≡ H.context host.old) }
    ensures within { IfOk result (λ r. used_of r fuel ≤ fuel) }
{
    // It says that the module is valid.
    let _module = valid.module();
    let mut stepper = Stepper::new(alloc, valid, fuel)?;
    loop {
        match stepper.step(host)? {
            None => {}
            Some(outcome) => return Ok(outcome),
        }
    }
}
