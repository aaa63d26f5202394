//! What an orderer is given.

ghost use Rattle.std.specs.Prelude.{◌≡◌, ℕ, List, [], ◌∷◌, ◌++◌, IfOk, OnErr};
ghost use mathlib.Core.List.{IsPrefix};
ghost use Rattle.fab_types.specs.declared.envelope.Envelope.{Envelope};
ghost use Rattle.envelope_ordering.specs.Given.{WasGiven, WasCut};

use fab_types::Envelope;
use orderer::{OrderCause, Orderer, ordering_laws};
use std::alloc::AllocError;

/// Gives an envelope to an orderer. One that is refused as too large or for want of a number (421
/// and 422) is dropped and counted as missing, as far as 64 bits count.
///
/// The error is of memory. Then the envelope is dropped, and nothing else has changed.
pub fn give(orderer: &mut Orderer, missing: &mut u64, envelope: Envelope) -> Result<(), AllocError>
    ensures ordered { IfOk result
        (λ _. (given : List Envelope) → WasGiven given orderer.old missing.old →
        WasGiven (given ++ envelope ∷ []) orderer.new missing.new) }
    ensures longer { IsPrefix orderer.old.chain orderer.new.chain }
    ensures same { (orderer.new.edition ≡ orderer.old.edition) ×
        (orderer.new.limits ≡ orderer.old.limits) ×
        (orderer.new.reorder ≡ orderer.old.reorder) }
    ensures unchanged { OnErr result (orderer.new ≡ orderer.old) }
    ensures uncounted { OnErr result (missing.new ≡ missing.old) }
{
    ordering_laws();
    match orderer.accept(envelope) {
        Ok(reports) => {
            drop(reports);
            Ok(())
        }
        Err(refusal) => {
            let cause = refusal.cause;
            drop(refusal);
            if matches!(cause, OrderCause::Memory) {
                Err(AllocError)
            } else {
                let count = missing.saturating_add(1);
                *missing = count;
                Ok(())
            }
        }
    }
}

/// Cuts the envelopes that wait for their batch, as a timeout does. Where their block would need a
/// number past the last one that the rules allow, they wait on.
///
/// The error is of memory, and changes nothing.
pub fn cut(orderer: &mut Orderer) -> Result<(), AllocError>
    ensures cut { IfOk result
        (λ _. (given : List Envelope) (missing : ℕ) → WasGiven given orderer.old missing →
        WasCut given orderer.new missing) }
    ensures longer { IsPrefix orderer.old.chain orderer.new.chain }
    ensures same { (orderer.new.edition ≡ orderer.old.edition) ×
        (orderer.new.limits ≡ orderer.old.limits) ×
        (orderer.new.reorder ≡ orderer.old.reorder) }
    ensures unchanged { OnErr result (orderer.new ≡ orderer.old) }
{
    ordering_laws();
    match orderer.tick() {
        Ok(report) => {
            drop(report);
            Ok(())
        }
        Err(refusal) => {
            let cause = refusal.cause;
            drop(refusal);
            if matches!(cause, OrderCause::Memory) {
                Err(AllocError)
            } else {
                Ok(())
            }
        }
    }
}
