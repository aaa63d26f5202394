//! Who stands before a block.

ghost use Rattle.std.specs.Prelude.{◌≡◌, IfOk};
ghost use Rattle.kept_state.specs.Keeping.{IsKept, chain_of};
ghost use Rattle.json_chain.specs.Standing.{orgs_before};

use endorsement_policy::{Rules, Standing};
use kept_state::KeptChain;
use std::alloc::{AllocError, Global};

/// Who stands before the block of a number of a chain.
pub(crate) fn standing_before<'a>(
    alloc: Global,
    rules: &'a Rules,
    chain: &KeptChain,
    number: u32,
) -> Result<Standing<'a>, AllocError>
    requires { IsKept chain.now }
    ensures { IfOk result (λ s. s.orgs ≡ orgs_before rules.now number (chain_of chain.now)) }
{
    Standing::after(alloc, rules, chain.membership_before(number))
}
