//! What is found of a chain, as JSON.

ghost use Rattle.std.specs.Prelude.{◌≡◌, IfOk, string_bytes};
ghost use Rattle.serde_json.specs.View.{view};
ghost use Rattle.json_chain.specs.Endings.{end_words, ending_json, finding_words, rerun_of};

use crate::object::Object;
use block_store::End;
use committer::CommitRefusal;
use ledger_setting::Audit;
use serde_json::Value;
use std::alloc::{AllocError, Global};

/// What is found of a store's blocks.
#[derive(Clone, Copy)]
pub enum Finding {
    /// The block of this number is the first that is stored with other flags than the table's.
    FlagsDiffer(usize),
    /// A block does not fit.
    Unfit(CommitRefusal),
    /// The block of this number is the first that upgrades to a module that is not at hand, so that
    /// the chain cannot be rerun.
    NotAtHand(u32),
    /// All fit and have the table's flags, and this is what their audit says.
    Audited(Audit),
}

/// What is found of a chain of so many blocks, and how its store ends. The only error is want of
/// memory.
pub(crate) fn ending_of(
    alloc: Global,
    finding: Finding,
    blocks: usize,
    end: End,
) -> Result<Value, AllocError>
    ensures { IfOk result (λ v. view v ≡ ending_json finding blocks end) }
{
    let mut object = Object::new(alloc);
    object.put("audit", Value::String(finding_words(alloc, finding)?))?;
    object.put("blocks", Value::from(blocks))?;
    object.put("end", Value::String(end_words(alloc, end)?))?;
    object.put("rerun", Value::from(rerun_of(finding)))?;
    Ok(object.into_value())
}

fn finding_words(alloc: Global, finding: Finding) -> Result<String, AllocError>
    ensures { IfOk result (λ s. string_bytes s ≡ finding_words finding) }
{
    match finding {
        Finding::FlagsDiffer(number) => format!(in alloc; "flags differ {number}"),
        Finding::Unfit(refusal) => {
            let number = refusal.number();
            format!(in alloc; "refused {number}")
        }
        Finding::NotAtHand(number) => format!(in alloc; "refused 406 block {number}"),
        Finding::Audited(Audit::Agrees { .. }) => String::from_str(alloc, "agrees"),
        Finding::Audited(Audit::Differs { block, tx }) => {
            format!(in alloc; "differs {block}.{tx}")
        }
    }
}

fn end_words(alloc: Global, end: End) -> Result<String, AllocError>
    ensures { IfOk result (λ s. string_bytes s ≡ end_words end) }
{
    match end {
        End::Clean => String::from_str(alloc, "clean"),
        end => format!(in alloc; "refused {end}"),
    }
}

/// How many transactions agree with their reruns, where all that are VALID do.
fn rerun_of(finding: Finding) -> usize
    ensures { result ≡ rerun_of finding }
{
    match finding {
        Finding::Audited(Audit::Agrees { rerun }) => rerun,
        _ => 0,
    }
}
