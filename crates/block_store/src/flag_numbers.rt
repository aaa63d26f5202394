//! Flags from their bytes.

ghost use Rattle.std.specs.Prelude.{◌≡◌, ◌<◌, MatchOption, IfOk, map};
ghost use Rattle.fab_types.specs.FlagNumber.{flag_number};
ghost use Rattle.block_store.specs.Store.{AreFlags};

use fab_types::Flag;
use std::alloc::{AllocError, Global};

fn flag_of(number: u8) -> Option<Flag>
    ensures { MatchOption result (4 < number) (λ f. flag_number f ≡ number) }
{
    match number {
        0 => Some(Flag::Valid),
        1 => Some(Flag::EndorsementPolicyFailure),
        2 => Some(Flag::MvccReadConflict),
        3 => Some(Flag::PhantomReadConflict),
        4 => Some(Flag::DuplicateTxid),
        _ => None,
    }
}

/// The flags with these numbers. None if a number is no flag's.
pub(crate) fn flags_of(alloc: Global, numbers: &[u8]) -> Result<Option<Vec<Flag>>, AllocError>
    ensures { IfOk result
        (λ o. MatchOption o (¬ AreFlags numbers.now) (λ v. map flag_number v.items ≡ numbers.now)) }
{
    let mut flags = Vec::new(alloc);
    for number in numbers {
        let Some(flag) = flag_of(*number) else {
            return Ok(None);
        };
        flags.push(flag)?;
    }
    Ok(Some(flags))
}
